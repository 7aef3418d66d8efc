// The words of the rehearsal: what a line of input means.
// It must not know feeds, jobs, clocks, the desk's limits, or where in a rehearsal a line stands.
#![tactic(auto)]

ghost use Rattle.std.specs.Prelude.{◌≡◌, [], ◌∷◌, MatchOption, unwrap_or};
ghost use Rattle.text.specs.Numbers.{number_of};
ghost use Rattle.text.specs.Fields.{fields_of};
ghost use Rattle.words.specs.Small.{small_of};
ghost use Rattle.words.specs.Lines.{word_of, three_of, four_of, said_of};
ghost use Rattle.words.specs.Lines.{line_of};

// The first field of a line.
#[derive(Clone, Copy)]
enum Word {
    Feed,
    Go,
    Ask,
    End,
    Rest,
    Run,
    Other,
}

// What a line says.
#[derive(Clone, Copy)]
pub enum Line {
    Feed(u32, u32, u32, u32),
    Go(u64, u32),
    Ask(u32, u32, u32),
    End(u32),
    Rest(u32),
    Run(u32),
    Bad,
}

impl Line {
    // The rehearsal's own limit on the ticks of one run.
    pub const RUN: u32 = 4096;
}

// What stands before the first space, and what after it.
#[tactic(auto, using(crate::proofs::Lines::cutting))]
fn cut(s: &[u8]) -> Option<(&[u8], &[u8])>
    ensures { MatchOption result (fields_of s.now ≡ s.now ∷ []) (λ p. fields_of s.now ≡ p.0.now ∷ fields_of p.1.now) }
{
    let end = text::find(s, 0, b' ')?;
    Some((&s[..end], &s[end + 1..]))
}

// Every number but the opening instant fits 32 bits.
#[tactic(auto, unfolding(crate::specs::Small::small_of))]
fn read_small(s: &[u8]) -> Option<u32>
    ensures { result ≡ small_of (number_of s.now) }
{
    u32::try_from(text::read_number(s)?).ok()
}

#[tactic(auto, using(crate::proofs::Lines::one_number, crate::proofs::Lines::third_missing), unfolding(crate::specs::Lines::three_of))]
fn read_three(s: &[u8]) -> Option<(u32, u32, u32)>
    ensures { result ≡ three_of (fields_of s.now) }
{
    let (first, others) = cut(s)?;
    let (second, third) = cut(others)?;
    Some((read_small(first)?, read_small(second)?, read_small(third)?))
}

#[tactic(auto, using(crate::proofs::Lines::others_missing), unfolding(crate::specs::Lines::four_of))]
fn read_four(s: &[u8]) -> Option<(u32, u32, u32, u32)>
    ensures { result ≡ four_of (fields_of s.now) }
{
    let (first, others) = cut(s)?;
    let a = read_small(first)?;
    let (b, c, d) = read_three(others)?;
    Some((a, b, c, d))
}

#[tactic(auto, using(crate::proofs::Lines::spelling), unfolding(crate::specs::Lines::word_in))]
fn read_word(s: &[u8]) -> Word
    ensures { result ≡ word_of s.now }
{
    match s {
        b"feed" => Word::Feed,
        b"go" => Word::Go,
        b"ask" => Word::Ask,
        b"end" => Word::End,
        b"rest" => Word::Rest,
        b"run" => Word::Run,
        _ => Word::Other,
    }
}

// What the word says with the fields after it, unless it is bad.
#[tactic(auto, using(crate::proofs::Lines::one_number, crate::proofs::Lines::charge_missing), unfolding(crate::specs::Lines::said_of, crate::specs::Lines::go_of))]
fn read_fields(word: Word, s: &[u8]) -> Option<Line>
    ensures { unwrap_or result Line.Bad ≡ said_of word (fields_of s.now) }
{
    match word {
        Word::Feed => read_four(s).map(|(a, b, c, d)| Line::Feed(a, b, c, d)),
        Word::Go => {
            let (start, charge) = cut(s)?;
            Some(Line::Go(text::read_number(start)?, read_small(charge)?))
        }
        Word::Ask => read_three(s).map(|(a, b, c)| Line::Ask(a, b, c)),
        Word::End => read_small(s).map(Line::End),
        Word::Rest => read_small(s).map(Line::Rest),
        Word::Run => read_small(s)
            .filter(|ticks| *ticks <= Line::RUN)
            .map(Line::Run),
        Word::Other => None,
    }
}

// What a line says; the newline at its end is not handed in.
#[tactic(auto, using(crate::proofs::Lines::said_alone), unfolding(crate::specs::Lines::line_of, crate::specs::Lines::meaning_of))]
pub fn read_line(s: &[u8]) -> Line
    ensures { result ≡ line_of s.now }
{
    let Some((word, fields)) = cut(s) else {
        return Line::Bad;
    };
    read_fields(read_word(word), fields).unwrap_or(Line::Bad)
}
