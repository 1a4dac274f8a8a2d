// The laws of keyframe sets.
ghost use Rattle.std.specs.Prelude.{◌≡◌, ◌<◌, ◌↔◌, ℕ, List as Items, Ok, Some, slice_get};
ghost use Rattle.std.specs.List.{Contains};
ghost use Rattle.page_model.specs.declared.keyframe.Keyframe.{Keyframe as Frame};
ghost use Rattle.page_model.specs.declared.property.Setting.{Setting as SettingOf};
ghost use Rattle.css_parts.specs.KeyframeGrammar.{Blocks, FrameBlock, given_in, set_of};
ghost use Rattle.style_tokens.specs.declared.token.CssToken.{CssToken};
ghost use Rattle.css_parts.specs.KeyframesOfBlocks.{HasFrame, IsLastBlock, IsLastSetting, IsListed};

/// In a keyframe set the offsets rise strictly, and a keyframe stands exactly where a block lists its offset. The blocks
/// that are read list each offset once, so the last block that lists it is the only one.
pub fn keyframes_are_of_blocks()
    ensures rise { (blocks : Items FrameBlock) (i j : ℕ) (first second : Frame) → i < j
        → slice_get (set_of blocks).frames i ≡ Some first → slice_get (set_of blocks).frames j ≡ Some second
        → first.offset < second.offset }
    ensures stand { (blocks : Items FrameBlock) (offset : ℕ) → HasFrame (set_of blocks) offset ↔ IsListed blocks offset }
    ensures once { (text : Items ℕ) (end : ℕ) (tokens rest : Items CssToken) (blocks : Items FrameBlock)
        → Blocks text end tokens (Ok (blocks, rest)) → (i j : ℕ) (first second : ℕ) → i < j
        → slice_get (given_in blocks) i ≡ Some first → slice_get (given_in blocks) j ≡ Some second → first ≡ second → ⊥ }
{}

/// A keyframe has a last block that lists its offset, and a setting stands in it exactly where it is the last of its
/// property in that block.
pub fn keyframes_have_the_last_values()
    ensures block { (blocks : Items FrameBlock) (frame : Frame) → Contains (set_of blocks).frames frame
        → (block : FrameBlock) × IsLastBlock blocks frame.offset block }
    ensures values { (blocks : Items FrameBlock) (frame : Frame) (block : FrameBlock) (setting : SettingOf)
        → Contains (set_of blocks).frames frame → IsLastBlock blocks frame.offset block
        → Contains frame.values setting ↔ IsLastSetting block.decls setting }
{}
