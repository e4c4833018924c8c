// A good description, put into a text as people type it: the number of boards, the relation lines, the kind lines.
#![tactic(auto)]

ghost use Rattle.std.specs.Prelude.{◌≡◌, [], ◌∷◌, ◌≤◌, length, replicate};
ghost use Rattle.puts.specs.Texts.{HasRoom, Put};
ghost use Rattle.typed.specs.Symbols.{boards, number};
ghost use Rattle.typed.specs.Writing.{relation_typing, kind_typing, spaced, line_text};
ghost use Rattle.sheet_texts.specs.Sheets.{Good, most_text, PutsSheet};
ghost use Rattle.sheet_texts.specs.Lines.{IsRelation, IsKind, IsLine, line_typing, HasLine, HasLines, line_words, last_text, panel_text, ways_text, front_text, lines_text};

use answers::limits::{
    HEADER_WORDS, LINE_WORDS, MOST_EXPRESSION_WORDS, MOST_KINDS, MOST_LINES, MOST_WAYS,
};
use expression_texts::put_expression;
use puts::Writer;

// The bytes of the longest first line, relation line and kind line.
const MOST_FIRST: usize = 6 + 3 + 1;

const MOST_RELATION: usize = 2 + 8 * MOST_EXPRESSION_WORDS + 3 + 1;

const MOST_KIND: usize = 2 + 2 + 6 + 2 + 3 * MOST_WAYS + 2 + 1;

// The bytes of the longest text.
pub const MOST_TEXT: usize = MOST_FIRST + MOST_LINES * MOST_RELATION + MOST_KINDS * MOST_KIND;

// Room for the text of any good description.
// Stays: no heap, so the room has the size of the longest text.
pub fn text_room() -> [u8; MOST_TEXT]
    ensures { result ≡ replicate most_text 0 }
{
    [0; MOST_TEXT]
}

// The sorts of lines after the first line.
#[derive(Clone, Copy)]
enum Sort {
    Relation,
    Kind,
}

// Puts a number after a blank.
#[tactic(auto, using(puts::proofs::Putting::putting), unfolding(typed::specs::Writing::spaced, typed::specs::Symbols::spelling))]
fn put_spaced(out: &mut Writer, n: usize)
    requires { HasRoom out.old (spaced (number n)) }
    ensures { Put out.old (spaced (number n)) out.new }
{
    out.put_byte(b' ');
    out.put_number(n);
}

// Puts a number after a blank, and ends the line.
#[tactic(auto, using(puts::proofs::Putting::putting))]
fn put_last(out: &mut Writer, n: usize)
    requires { HasRoom out.old (last_text n) }
    ensures { Put out.old (last_text n) out.new }
{
    put_spaced(out, n);
    out.put_byte(b'\n');
}

// Puts the first line, with the number of boards.
#[tactic(auto, using(puts::proofs::Putting::putting, crate::proofs::Bytes::first_text_lem))]
fn put_first(out: &mut Writer, v: usize)
    requires { HasRoom out.old (line_text (boards ∷ number v ∷ [])) }
    ensures { Put out.old (line_text (boards ∷ number v ∷ [])) out.new }
{
    out.put_text(b"boards");
    put_last(out, v);
}

// Puts the relation line that the words begin with: p, the expression and q. Answers how many words it has.
fn put_relation(words: &[u16], out: &mut Writer) -> usize
    requires { HasLine IsRelation words.now × HasRoom out.old (front_text relation_typing words.now) }
    ensures after { result ≡ line_words words.now }
    ensures put { Put out.old (front_text relation_typing words.now) out.new }
{
    out.put_number(usize::from(words[0]));
    let expression = put_expression(&words[LINE_WORDS..], 0, out);
    put_last(out, usize::from(words[1]));
    LINE_WORDS + expression
}

// Puts a kind line up to its ways: the panel and the code.
#[tactic(auto, using(puts::proofs::Putting::putting))]
fn put_panel(out: &mut Writer, p: usize, code: usize)
    requires { HasRoom out.old (panel_text p code) }
    ensures { Put out.old (panel_text p code) out.new }
{
    out.put_number(p);
    out.put_text(b" :");
    put_spaced(out, code);
    out.put_text(b" (");
}

// Puts the ways of a kind line.
fn put_ways(ways: &[u16], out: &mut Writer)
    requires { HasRoom out.old (ways_text ways.now) }
    ensures { Put out.old (ways_text ways.now) out.new }
{
    for way in ways {
        put_spaced(out, usize::from(*way));
    }
}

// Puts the kind line that the words begin with: the panel, the code and the ways. Answers how many words it has.
fn put_kind(words: &[u16], out: &mut Writer) -> usize
    requires { HasLine IsKind words.now × HasRoom out.old (front_text kind_typing words.now) }
    ensures after { result ≡ line_words words.now }
    ensures put { Put out.old (front_text kind_typing words.now) out.new }
{
    let end = LINE_WORDS + usize::from(words[2]);
    put_panel(out, usize::from(words[0]), usize::from(words[1]));
    put_ways(&words[LINE_WORDS..end], out);
    out.put_text(b" )\n");
    end
}

// Puts the line of a sort that the words begin with. Answers how many words it has.
fn put_line(sort: Sort, words: &[u16], out: &mut Writer) -> usize
    requires { HasLine (IsLine sort) words.now × HasRoom out.old (front_text (line_typing sort) words.now) }
    ensures after { result ≡ line_words words.now }
    ensures put { Put out.old (front_text (line_typing sort) words.now) out.new }
{
    match sort {
        Sort::Relation => put_relation(words, out),
        Sort::Kind => put_kind(words, out),
    }
}

// Puts the lines of a sort, so many, that the words begin with.
fn put_lines(sort: Sort, count: usize, words: &[u16], out: &mut Writer)
    requires { HasLines (IsLine sort) count words.now × HasRoom out.old (lines_text (line_typing sort) count words.now) }
    ensures { Put out.old (lines_text (line_typing sort) count words.now) out.new }
{
    let mut rest = words;
    for _ in 0..count {
        let after = put_line(sort, rest, out);
        rest = &rest[after..];
    }
}

// Puts the text of a good description at the front of a text that has room for the longest, and answers its length.
pub fn put_sheet(words: &[u16], text: &mut [u8]) -> usize
    requires { Good words.now × (most_text ≤ length text.old) }
    ensures { PutsSheet words.now text.old text.new result }
{
    let v = usize::from(words[0]);
    let relations = usize::from(words[1]);
    let kinds = usize::from(words[2]);
    let first_kind = usize::from(words[4]);
    let mut out = Writer::new(text);
    put_first(&mut out, v);
    put_lines(Sort::Relation, relations, &words[HEADER_WORDS..], &mut out);
    put_lines(Sort::Kind, kinds, &words[first_kind..], &mut out);
    out.at()
}
