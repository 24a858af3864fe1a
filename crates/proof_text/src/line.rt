ghost use Rattle.std.specs.Prelude.{◌≡◌, IfOk};
ghost use Rattle.proof_text.specs.Words.{words_after};
ghost use Rattle.proof_text.specs.Line.{natural_32, goal_of, at_least_once, multiple_of, literals_of, hints_of, multiples_of, is_colon, is_system, is_theory, lemma_of, version_of, header_line, shape_line, goal_line, split_line, cut_line, end_line, lemma_line, theory_line, leaf_line, front_line, short_line, read};

use crate::literal::{literal_of, term_of, var_of};
use crate::number::{natural, number};
use crate::reading::{Gathered, Reading, both};
use crate::words::{first_word, next_word, only_word, two_words};
use mix_system::{Hints, Lit, Lits, Term};
use std::alloc::Global;
use wx_base::{NoMemory, Sequence};

/// A literal, and how often a leaf takes it.
#[derive(Clone, Copy, Debug, PartialEq, Eq)]
pub struct Multiple {
    pub by: i128,
    pub lit: Lit,
}

/// The literals of a leaf, each with its multiplier.
pub type Multiples = Sequence<Multiple>;

/// The versions of the text.
#[derive(Clone, Copy, Debug, PartialEq, Eq)]
pub enum Version {
    /// Without a shape.
    One,
    /// With the counts of variables and clauses in the second line.
    Two,
}

/// What kind of line it is, by its first word.
#[derive(Clone, Copy, Debug, PartialEq, Eq)]
pub enum Kind {
    Header,
    Shape,
    Goal,
    Lemma,
    Theory,
    Split,
    Leaf,
    Cut,
    End,
}

/// One line of a proof's text. Its numbers are in the ranges that the text has for them, whatever the system.
#[derive(Debug, Drop)]
pub enum Line {
    /// `wcet proof 1` or `wcet proof 2`
    Header(Version),
    /// `system V C`
    Shape { vars: u32, clauses: u32 },
    /// `goal N` or `goal none`
    Goal(Option<u64>),
    /// `lemma LIT .. : HINT ..`
    Lemma { clause: Lits, hints: Hints },
    /// `theory LIT ..`
    Theory { clause: Lits },
    /// `split vJ AT`
    Split { var: u32, at: i128 },
    /// `leaf M LIT ..`, each multiplier at least 1
    Leaf { parts: Multiples },
    /// `cut TERM BOUND`
    Cut { term: Term, bound: i128 },
    /// `end`
    End,
}

/// What the bytes of a line give.
#[derive(Debug, Drop)]
pub enum LineRead {
    /// They haven't the form of a line.
    Malformed,
    /// They have the form of such a line, but a number is out of its range.
    Unfit(Kind),
    /// They are this line.
    Fits(Line),
}

// A number of 32 bits.
fn natural_32(word: &[u8]) -> Reading<u32>
    ensures { result ≡ natural_32 word.now }
{
    match natural(word, 1 << 32) {
        Reading::Fits(number) => Reading::Fits(number as u32),
        Reading::Unfit => Reading::Unfit,
        Reading::Malformed => Reading::Malformed,
    }
}

// `none`, or a number of 64 bits.
fn goal_of(word: &[u8]) -> Reading<Option<u64>>
    ensures { result ≡ goal_of word.now }
{
    if matches!(word, b"none") {
        return Reading::Fits(None);
    }
    match natural(word, 1 << 64) {
        Reading::Fits(number) => Reading::Fits(Some(number as u64)),
        Reading::Unfit => Reading::Unfit,
        Reading::Malformed => Reading::Malformed,
    }
}

// A multiplier with its literal.
fn multiple_of(by: &[u8], lit: &[u8]) -> Reading<Multiple>
    ensures { result ≡ multiple_of by.now lit.now }
{
    match both(at_least_once(number(by)), literal_of(lit)) {
        Reading::Fits((by, lit)) => Reading::Fits(Multiple { by, lit }),
        Reading::Unfit => Reading::Unfit,
        Reading::Malformed => Reading::Malformed,
    }
}

// The number, where it is at least 1.
fn at_least_once(by: Reading<i128>) -> Reading<i128>
    ensures { result ≡ at_least_once by }
{
    match by {
        Reading::Fits(by) if by <= 0 => Reading::Unfit,
        _ => by,
    }
}

// Each word is a literal.
fn literals_of(alloc: Global, rest: &[u8]) -> Result<Reading<Lits>, NoMemory>
    ensures { IfOk result (λ lits. lits ≡ literals_of (words_after rest.now)) }
{
    let mut lits = Gathered::new(alloc);
    let mut left = rest;
    while let Some((word, next)) = next_word(left) {
        if !lits.put(literal_of(word))? {
            return Ok(Reading::Malformed);
        }
        left = next;
    }
    Ok(lits.end())
}

// Each word is the number of a clause.
fn hints_of(alloc: Global, rest: &[u8]) -> Result<Reading<Hints>, NoMemory>
    ensures { IfOk result (λ hints. hints ≡ hints_of (words_after rest.now)) }
{
    let mut hints = Gathered::new(alloc);
    let mut left = rest;
    while let Some((word, next)) = next_word(left) {
        if !hints.put(natural_32(word))? {
            return Ok(Reading::Malformed);
        }
        left = next;
    }
    Ok(hints.end())
}

// The words are multipliers, each with a literal.
fn multiples_of(alloc: Global, rest: &[u8]) -> Result<Reading<Multiples>, NoMemory>
    ensures { IfOk result (λ parts. parts ≡ multiples_of (words_after rest.now)) }
{
    let mut parts = Gathered::new(alloc);
    let mut left = rest;
    while let Some((by, behind)) = next_word(left) {
        let Some((lit, next)) = next_word(behind) else {
            return Ok(Reading::Malformed);
        };
        if !parts.put(multiple_of(by, lit))? {
            return Ok(Reading::Malformed);
        }
        left = next;
    }
    Ok(parts.end())
}

// Literals up to a colon, and the numbers of clauses behind it.
fn lemma_of(alloc: Global, rest: &[u8]) -> Result<Reading<(Lits, Hints)>, NoMemory>
    ensures { IfOk result (λ parts. parts ≡ lemma_of (words_after rest.now)) }
{
    let mut clause = Gathered::new(alloc);
    let mut left = rest;
    while let Some((word, next)) = next_word(left) {
        if is_colon(word) {
            let hints = hints_of(alloc, next)?;
            return Ok(both(clause.end(), hints));
        }
        if !clause.put(literal_of(word))? {
            return Ok(Reading::Malformed);
        }
        left = next;
    }
    Ok(Reading::Malformed)
}

fn is_colon(word: &[u8]) -> bool
    ensures { result ≡ is_colon word.now }
{
    matches!(word, b":")
}

fn is_system(word: &[u8]) -> bool
    ensures { result ≡ is_system word.now }
{
    word == b"system".as_slice()
}

fn is_theory(word: &[u8]) -> bool
    ensures { result ≡ is_theory word.now }
{
    word == b"theory".as_slice()
}

// The lines, by what stands behind their first word.

fn version_of(word: &[u8]) -> LineRead
    ensures { result ≡ version_of word.now }
{
    match word {
        b"1" => LineRead::Fits(Line::Header(Version::One)),
        b"2" => LineRead::Fits(Line::Header(Version::Two)),
        _ => LineRead::Malformed,
    }
}

#[tactic(auto, unfolding(crate::specs::Line::header_line))]
fn header_line(rest: &[u8]) -> LineRead
    ensures { result ≡ header_line (words_after rest.now) }
{
    match two_words(rest) {
        Some((b"proof", version)) => version_of(version),
        _ => LineRead::Malformed,
    }
}

#[tactic(auto, unfolding(crate::specs::Line::shape_line))]
fn shape_line(rest: &[u8]) -> LineRead
    ensures { result ≡ shape_line (words_after rest.now) }
{
    let Some((vars, clauses)) = two_words(rest) else {
        return LineRead::Malformed;
    };
    match both(natural_32(vars), natural_32(clauses)) {
        Reading::Fits((vars, clauses)) => LineRead::Fits(Line::Shape { vars, clauses }),
        Reading::Unfit => LineRead::Unfit(Kind::Shape),
        Reading::Malformed => LineRead::Malformed,
    }
}

#[tactic(auto, unfolding(crate::specs::Line::goal_line))]
fn goal_line(rest: &[u8]) -> LineRead
    ensures { result ≡ goal_line (words_after rest.now) }
{
    let Some(word) = only_word(rest) else {
        return LineRead::Malformed;
    };
    match goal_of(word) {
        Reading::Fits(most) => LineRead::Fits(Line::Goal(most)),
        Reading::Unfit => LineRead::Unfit(Kind::Goal),
        Reading::Malformed => LineRead::Malformed,
    }
}

#[tactic(auto, unfolding(crate::specs::Line::split_line))]
fn split_line(rest: &[u8]) -> LineRead
    ensures { result ≡ split_line (words_after rest.now) }
{
    let Some((var, at)) = two_words(rest) else {
        return LineRead::Malformed;
    };
    match both(var_of(var), number(at)) {
        Reading::Fits((var, at)) => LineRead::Fits(Line::Split { var, at }),
        Reading::Unfit => LineRead::Unfit(Kind::Split),
        Reading::Malformed => LineRead::Malformed,
    }
}

#[tactic(auto, unfolding(crate::specs::Line::cut_line))]
fn cut_line(rest: &[u8]) -> LineRead
    ensures { result ≡ cut_line (words_after rest.now) }
{
    let Some((term, bound)) = two_words(rest) else {
        return LineRead::Malformed;
    };
    match both(term_of(term), number(bound)) {
        Reading::Fits((term, bound)) => LineRead::Fits(Line::Cut { term, bound }),
        Reading::Unfit => LineRead::Unfit(Kind::Cut),
        Reading::Malformed => LineRead::Malformed,
    }
}

#[tactic(auto, unfolding(crate::specs::Line::end_line))]
fn end_line(rest: &[u8]) -> LineRead
    ensures { result ≡ end_line (words_after rest.now) }
{
    match next_word(rest) {
        None => LineRead::Fits(Line::End),
        Some(_) => LineRead::Malformed,
    }
}

#[tactic(auto, unfolding(crate::specs::Line::lemma_line))]
fn lemma_line(alloc: Global, rest: &[u8]) -> Result<LineRead, NoMemory>
    ensures { IfOk result (λ line. line ≡ lemma_line (words_after rest.now)) }
{
    match lemma_of(alloc, rest)? {
        Reading::Fits((clause, hints)) => Ok(LineRead::Fits(Line::Lemma { clause, hints })),
        Reading::Unfit => Ok(LineRead::Unfit(Kind::Lemma)),
        Reading::Malformed => Ok(LineRead::Malformed),
    }
}

#[tactic(auto, unfolding(crate::specs::Line::theory_line))]
fn theory_line(alloc: Global, rest: &[u8]) -> Result<LineRead, NoMemory>
    ensures { IfOk result (λ line. line ≡ theory_line (words_after rest.now)) }
{
    match literals_of(alloc, rest)? {
        Reading::Fits(clause) => Ok(LineRead::Fits(Line::Theory { clause })),
        Reading::Unfit => Ok(LineRead::Unfit(Kind::Theory)),
        Reading::Malformed => Ok(LineRead::Malformed),
    }
}

#[tactic(auto, unfolding(crate::specs::Line::leaf_line))]
fn leaf_line(alloc: Global, rest: &[u8]) -> Result<LineRead, NoMemory>
    ensures { IfOk result (λ line. line ≡ leaf_line (words_after rest.now)) }
{
    if next_word(rest).is_none() {
        return Ok(LineRead::Malformed);
    }
    match multiples_of(alloc, rest)? {
        Reading::Fits(parts) => Ok(LineRead::Fits(Line::Leaf { parts })),
        Reading::Unfit => Ok(LineRead::Unfit(Kind::Leaf)),
        Reading::Malformed => Ok(LineRead::Malformed),
    }
}

// A line before the first step.
#[tactic(auto, unfolding(crate::specs::Line::front_line))]
fn front_line(word: &[u8], rest: &[u8]) -> LineRead
    ensures { result ≡ front_line word.now (words_after rest.now) }
{
    if is_system(word) {
        return shape_line(rest);
    }
    match word {
        b"goal" => goal_line(rest),
        b"wcet" => header_line(rest),
        _ => LineRead::Malformed,
    }
}

// A line that takes no memory.
#[tactic(auto, unfolding(crate::specs::Line::short_line))]
fn short_line(word: &[u8], rest: &[u8]) -> LineRead
    ensures { result ≡ short_line word.now (words_after rest.now) }
{
    match word {
        b"split" => split_line(rest),
        b"end" => end_line(rest),
        b"cut" => cut_line(rest),
        _ => front_line(word, rest),
    }
}

/// Reads the bytes of a line, without its line feed: words with one space between them.
#[tactic(auto, unfolding(crate::specs::Line::line_of))]
pub fn read(alloc: Global, line: &[u8]) -> Result<LineRead, NoMemory>
    ensures { IfOk result (λ read_line. read_line ≡ read line.now) }
{
    let (word, rest) = first_word(line);
    if is_theory(word) {
        return theory_line(alloc, rest);
    }
    match word {
        b"lemma" => lemma_line(alloc, rest),
        b"leaf" => leaf_line(alloc, rest),
        _ => Ok(short_line(word, rest)),
    }
}
