//! The words of a line: a space parts two of them.

ghost use Rattle.std.specs.Prelude.{◌≡◌, ◌≤◌, ◌∷◌, [], length, map, take, IfSome, IfNone};
ghost use Rattle.pg_words.specs.Words.{words_in};

use pg_base::cut_at;

/// Puts the first words of a line into the room, as many as there is room for, and answers how many
/// they are.
pub fn first_words<'a>(line: &'a [u8], room: &mut [&'a [u8]]) -> usize
    ensures few { result ≤ length room.new }
    ensures first { map (λ w. w.now) (take result room.new)
        ≡ take (length room.new) (words_in line.now) }
{
    let mut rest = Some(line);
    for index in 0..room.len() {
        let Some(text) = rest else {
            return index;
        };
        match cut_at(text, b' ') {
            Some((word, more)) => {
                room[index] = word;
                rest = Some(more);
            }
            None => {
                room[index] = text;
                rest = None;
            }
        }
    }
    room.len()
}

/// The first of some words, and the words behind it.
pub fn first_word<'a, 'b>(words: &'b [&'a [u8]]) -> Option<(&'a [u8], &'b [&'a [u8]])>
    ensures found { IfSome result (λ x. map (λ w. w.now) words.now ≡ x.0.now
        ∷ map (λ w. w.now) x.1.now) }
    ensures none { IfNone result (map (λ w. w.now) words.now ≡ []) }
{
    let (word, rest) = words.split_first()?;
    Some((*word, rest))
}
