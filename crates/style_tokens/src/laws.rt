// The law of scans.
ghost use Rattle.std.specs.Prelude.{◌⊎◌, List as Items, ℕ};
ghost use Rattle.style_tokens.specs.CssTokens.{AreTokens, IsBadAt};
ghost use Rattle.style_tokens.specs.declared.token.CssToken.{CssToken as Token};

/// Every text, whatever its bytes are, is tokens with gaps between them, or has a first place where nothing begins.
pub fn every_style_text_is_scanned()
    ensures { (end : ℕ) (bytes : Items ℕ)
        → ((tokens : Items Token) × AreTokens end bytes tokens) ⊎ ((place : ℕ) × IsBadAt end bytes place) }
{}
