ghost use Rattle.std.specs.Prelude.{◌≡◌, ◌≤◌, ◌<◌, ◌*◌, ◌++◌, length, drop};
ghost use Rattle.dn_record.specs.Values.{words_for, word_of, words_from};

/// How many words so many bytes fill.
pub(crate) fn word_count(bytes: u16) -> u16
    ensures { result ≡ words_for bytes }
{
    ((u32::from(bytes) + 7) / 8) as u16
}
