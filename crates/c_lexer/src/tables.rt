//! Looking words up in tables, in which each entry has its spelling.

ghost use Rattle.std.specs.Prelude.{◌≡◌, ◌≤◌, true, length, map, IfSome};
ghost use Rattle.c_lexer.specs.Scan as spec;

/// Whether the text begins with the word.
pub fn begins(s: &[u8], word: &[u8]) -> bool
    ensures value { result ≡ spec.begins s.now word.now }
    ensures within { result ≡ true → length word.now ≤ length s.now }
{
    s.starts_with(word)
}

/// The entry that is spelled like the word.
pub fn entry_of<K: Copy>(mut table: &[(K, &[u8])], word: &[u8]) -> Option<K>
    ensures { result ≡ spec.entry_of (map (λ e. (e.0, e.1.now)) table.entry.now) word.now }
{
    while let [entry, rest @ ..] = table {
        if word == entry.1 {
            return Some(entry.0);
        }
        table = rest;
    }
    None
}

/// The first entry whose spelling begins the text, with the length of its spelling.
pub fn first_match<K: Copy>(mut table: &[(K, &[u8])], s: &[u8]) -> Option<(K, usize)>
    ensures value { result ≡ spec.first_match (map (λ e. (e.0, e.1.now)) table.entry.now) s.now }
    ensures within { IfSome result (λ found. found.1 ≤ length s.now) }
{
    while let [entry, rest @ ..] = table {
        if begins(s, entry.1) {
            return Some((entry.0, entry.1.len()));
        }
        table = rest;
    }
    None
}
