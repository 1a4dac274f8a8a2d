// Channels over channels.
ghost use Rattle.std.specs.Prelude.{◌≡◌};
ghost use Rattle.page_model.specs.Colour as colours;
ghost use Rattle.page_model.specs.TintOf as definition;
ghost use Rattle.frame_state.specs.States.{IsInSlot, eight_bits, loose_as};
ghost use Rattle.paint_blend.specs.Paint.{span_as};

use crate::span::Span;
use fix_span::Loose;

// One channel over another, by an alpha from 0 to 255, rounded half up.
fn blended(source: u8, alpha: u8, backdrop: u8) -> u8
    ensures { result ≡ colours.blended source alpha backdrop }
{
    let sum = source as u32 * alpha as u32 + backdrop as u32 * (255 - alpha as u32) + 127;
    (sum / 255) as u8
}

// A cover and an alpha together, rounded half up.
fn combined(cover: u8, alpha: u8) -> u8
    ensures { result ≡ colours.combined cover alpha }
{
    let product = cover as u32 * alpha as u32 + 127;
    (product / 255) as u8
}

/// The ends of both together.
pub fn combined_span(cover: Span, alpha: Span) -> Span
    ensures { span_as result ≡ definition.combined_span (span_as cover) (span_as alpha) }
{
    Span {
        lo: combined(cover.lo, alpha.lo),
        hi: combined(cover.hi, alpha.hi),
    }
}

// A span over another, by one alpha: over the two ends of both.
fn blended_at(source: Span, alpha: u8, backdrop: Span) -> Span
    ensures { span_as result ≡ definition.blended_at (span_as source) alpha (span_as backdrop) }
{
    let low = blended(source.lo, alpha, backdrop.lo);
    if source.lo == source.hi && backdrop.lo == backdrop.hi {
        return Span { lo: low, hi: low };
    }
    let low_high = blended(source.lo, alpha, backdrop.hi);
    let high_low = blended(source.hi, alpha, backdrop.lo);
    let high = blended(source.hi, alpha, backdrop.hi);
    Span {
        lo: low.min(low_high).min(high_low.min(high)),
        hi: low.max(low_high).max(high_low.max(high)),
    }
}

/// Two spans, and all that lies between them.
pub fn hull(a: Span, b: Span) -> Span
    ensures { span_as result ≡ definition.hull (span_as a) (span_as b) }
{
    Span {
        lo: a.lo.min(b.lo),
        hi: a.hi.max(b.hi),
    }
}

/// A span over another, over the two ends of alpha too.
pub fn blended_span(source: Span, alpha: Span, backdrop: Span) -> Span
    ensures { span_as result
        ≡ definition.blended_span (span_as source) (span_as alpha) (span_as backdrop) }
{
    let first = blended_at(source, alpha.lo, backdrop);
    if alpha.lo == alpha.hi {
        return first;
    }
    hull(first, blended_at(source, alpha.hi, backdrop))
}

/// A loose channel, cover or alpha as a span.
pub fn span_of(loose: Loose) -> Span
    requires { IsInSlot eight_bits (loose_as loose) }
    ensures { span_as result ≡ definition.span_of (loose_as loose) }
{
    Span {
        lo: loose.lo as u8,
        hi: loose.hi as u8,
    }
}
