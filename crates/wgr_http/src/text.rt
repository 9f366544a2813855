//! Bytes that may still become text.
ghost use Rattle.std.specs.Prelude.{◌≡◌, true, false};
ghost use Rattle.wgr_http.specs.Text.{MayBecomeText, NeverBecomesText};

/// Whether these bytes are UTF-8 (RFC 3629), or a beginning of it that further bytes can complete.
pub(crate) fn may_become_text(bytes: &[u8]) -> bool
    ensures may { result ≡ true → MayBecomeText bytes.now }
    ensures never { result ≡ false → NeverBecomesText bytes.now }
{
    match std::str::from_utf8(bytes) {
        Ok(_) => true,
        // The bytes end within a character.
        Err(fault) => fault.error_len().is_none(),
    }
}
