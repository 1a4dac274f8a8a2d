// The winning declarations of an element.
ghost use Rattle.std.specs.Prelude.{◌≡◌, ◌<◌, ℕ, IfSome, flat_map, fold, length, map};
ghost use Rattle.std.specs.Option.{option_copied, option_map};
ghost use Rattle.page_model.specs.Cascade as definition;
ghost use Rattle.page_model.specs.Cascade.{AreWinners, by_attribute, by_selector, of_rule};
ghost use Rattle.css_reader.specs.ReadySheet.{AreReadyDecls, AreReadyRules};
ghost use Rattle.cascade_winners.specs.Offers.{better, of_selector, offered};
ghost use Rattle.cascade_winners.specs.Views.{candidate_as, no_winners, slots_as, winners_as};
ghost use Rattle.cascade_winners.specs.WinningValues.{IsWinningValue};

use crate::matching::matches;
use crate::weights::{Weight, is_beaten_by};
use page_model::{Compound, Decl, Element, List, Longhand, Rule};

/// How many longhand properties there are.
const PROPERTIES: usize = 19;

/// A declaration that matches an element: its weight, and its longhand, which stays where it is.
#[derive(Clone, Copy)]
pub struct Candidate<'a> {
    pub weight: Weight,
    pub longhand: &'a Longhand,
}

/// The best declaration of each longhand property so far, by the property's number.
#[derive(Clone, Copy)]
pub struct Winners<'a> {
    slots: [Option<Candidate<'a>>; PROPERTIES],
}

// The number of a longhand property.
fn number_of(longhand: &Longhand) -> usize
    ensures exact { result ≡ definition.number_of longhand.now }
    ensures within { result < 19 }
{
    match longhand {
        Longhand::Position => 0,
        Longhand::Left(_) => 1,
        Longhand::Top(_) => 2,
        Longhand::Width(_) => 3,
        Longhand::Height(_) => 4,
        Longhand::Colour(_) => 5,
        Longhand::Opacity(_) => 6,
        Longhand::Visibility(_) => 7,
        Longhand::ZIndex(_) => 8,
        Longhand::Margin => 9,
        Longhand::Padding => 10,
        Longhand::Names(_) => 11,
        Longhand::Durations(_) => 12,
        Longhand::Easings(_) => 13,
        Longhand::Delays(_) => 14,
        Longhand::Counts(_) => 15,
        Longhand::Directions(_) => 16,
        Longhand::Fills(_) => 17,
        Longhand::Paused(_) => 18,
    }
}

// A declaration of a rule, by one of its selectors.
fn by_selector<'a>(decl: &'a Decl, selector: &Compound) -> Candidate<'a>
    ensures { candidate_as result ≡ by_selector decl.now selector.now }
{
    Candidate {
        weight: Weight {
            important: decl.important,
            inline: false,
            ids: selector.ids.len(),
            classes: selector.classes.len(),
            has_tag: selector.tag.is_some(),
            place: decl.place,
        },
        longhand: &decl.longhand,
    }
}

// A declaration of a style attribute.
fn by_attribute(decl: &Decl) -> Candidate<'_>
    ensures { candidate_as result ≡ by_attribute decl.now }
{
    Candidate {
        weight: Weight {
            important: decl.important,
            inline: true,
            ids: 0,
            classes: 0,
            has_tag: false,
            place: decl.place,
        },
        longhand: &decl.longhand,
    }
}

// Which of two declarations wins, of which the first may be none.
fn better<'a>(best: Option<Candidate<'a>>, candidate: Candidate<'a>) -> Candidate<'a>
    ensures { candidate_as result ≡ better (option_map candidate_as best.entry) (candidate_as candidate.entry) }
{
    match best {
        Some(winner) => {
            if is_beaten_by(&winner.weight, &candidate.weight) {
                candidate
            } else {
                winner
            }
        }
        None => candidate,
    }
}

// Puts a declaration into its slot, if it wins there.
fn put<'a>(slots: &mut [Option<Candidate<'a>>], property: usize, candidate: Candidate<'a>)
    requires within { property < length slots.old }
    requires property { property ≡ definition.number_of candidate.longhand.now }
    ensures { slots_as slots.new ≡ offered (slots_as slots.old) (candidate_as candidate.entry) }
{
    slots[property] = Some(better(slots[property], candidate));
}

impl<'a> Winners<'a> {
    // No declaration of any property.
    fn none() -> Winners<'a>
        ensures { winners_as result ≡ no_winners }
    {
        Winners {
            slots: [None; PROPERTIES],
        }
    }

    // One more declaration.
    fn offer(&mut self, candidate: Candidate<'a>)
        ensures { winners_as self.new ≡ offered (winners_as self.old) (candidate_as candidate.entry) }
    {
        let property = number_of(candidate.longhand);
        put(&mut self.slots, property, candidate);
    }

    // The declarations of a rule, by a selector that matches.
    fn offer_decls(&mut self, decls: &'a [Decl], selector: &Compound)
        ensures { winners_as self.new
            ≡ fold offered (winners_as self.old) (map (λ decl. by_selector decl selector.now) decls.now) }
    {
        'decls: for decl in decls {
            self.offer(by_selector(decl, selector));
        }
    }

    // The declarations of a style attribute.
    fn offer_attribute(&mut self, decls: &'a [Decl])
        ensures { winners_as self.new ≡ fold offered (winners_as self.old) (map by_attribute decls.now) }
    {
        'decls: for decl in decls {
            self.offer(by_attribute(decl));
        }
    }

    // The declarations of a rule by a selector, if that matches the element.
    fn offer_selector(&mut self, element: &Element, decls: &'a [Decl], selector: &Compound)
        ensures { winners_as self.new ≡ fold offered (winners_as self.old) (of_selector element.now decls.now selector.now) }
    {
        if matches(selector, element) {
            self.offer_decls(decls, selector);
        }
    }

    // The declarations of a rule by some selectors, once for each that matches the element.
    fn offer_selectors(&mut self, element: &Element, decls: &'a [Decl], selectors: &[Compound])
        ensures { winners_as self.new
            ≡ fold offered (winners_as self.old) (flat_map (of_selector element.now decls.now) selectors.now) }
    {
        'selectors: for selector in selectors {
            self.offer_selector(element, decls, selector);
        }
    }

    // The declarations of a rule, once for each selector that matches the element.
    fn offer_rule(&mut self, element: &Element, rule: &'a Rule)
        ensures { winners_as self.new ≡ fold offered (winners_as self.old) (of_rule element.now rule.now) }
    {
        self.offer_selectors(element, rule.decls.as_slice(), rule.selectors.as_slice());
    }

    // The declarations of all rules.
    fn offer_rules(&mut self, element: &Element, rules: &'a [Rule])
        ensures { winners_as self.new ≡ fold offered (winners_as self.old) (flat_map (of_rule element.now) rules.now) }
    {
        'rules: for rule in rules {
            self.offer_rule(element, rule);
        }
    }

    /// The winning value of a property, by the property's number.
    pub fn value(&self, property: usize) -> Option<&'a Longhand>
        ensures { option_copied result ≡ definition.value_of (winners_as self.now) property }
    {
        match self.slots.get(property) {
            Some(Some(winner)) => Some(winner.longhand),
            _ => None,
        }
    }

    /// Whether a property has a winning declaration.
    pub fn has(&self, property: usize) -> bool
        ensures { result ≡ definition.has (winners_as self.now) property }
    {
        self.value(property).is_some()
    }

    /// Whether the winning declaration of a property is important.
    pub fn is_important(&self, property: usize) -> bool
        ensures { result ≡ definition.is_important (winners_as self.now) property }
    {
        match self.slots.get(property) {
            Some(Some(winner)) => winner.weight.important,
            _ => false,
        }
    }
}

/// The winning declarations of an element, from the rules and from its style attribute: the only ones, each a
/// declaration of its property with a value in its limits.
pub fn winners_of<'a>(
    rules: &'a List<Rule>,
    element: &Element,
    inline: &'a List<Decl>,
) -> Winners<'a>
    requires rules { AreReadyRules rules.now }
    requires inline { AreReadyDecls inline.now }
    ensures winners { AreWinners rules.now element.now inline.now (winners_as result) }
    ensures only { (other : definition.Winners) → AreWinners rules.now element.now inline.now other → other ≡ winners_as result }
    ensures values { (property : ℕ) → IfSome (winners_as result property) (IsWinningValue property) }
{
    best_of(rules, element, inline)
}

/// The best declarations of each property, of all that match the element.
pub fn best_of<'a>(rules: &'a List<Rule>, element: &Element, inline: &'a List<Decl>) -> Winners<'a>
    ensures { AreWinners rules.now element.now inline.now (winners_as result) }
{
    let mut winners = Winners::none();
    winners.offer_rules(element, rules.as_slice());
    winners.offer_attribute(inline.as_slice());
    winners
}
