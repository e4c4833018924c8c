// An expression, in prefix words, put into a text as people type it: with only the parentheses that are needed, each symbol after a blank.
#![tactic(auto)]

ghost use Rattle.std.specs.Prelude.{◌≡◌, ◌<◌};
ghost use Rattle.puts.specs.Texts.{HasRoom, Put};
ghost use Rattle.typed.specs.Symbols.{word};
ghost use Rattle.typed.specs.Writing.{spaced};
ghost use Rattle.expression_texts.specs.Puts.{Begins, bytes, extent, marked};

use puts::Writer;

// The codes of the words that join two operands: those before them name a relation, and those after them have one operand.
// Stays: the codes are numbers, the words of a description as they are lent; an enum would be made of each only to be matched once.
const OR: u16 = 4;

const AND: u16 = 5;

// How tightly the operand of `not` and `inv` must bind.
const TIGHTEST: u8 = 2;

// Puts the word for a code, after a blank.
// Put in its three places, each of which knows more of the code.
#[inline(always)]
#[tactic(auto, using(puts::proofs::Putting::putting), unfolding(typed::specs::Writing::spaced, typed::specs::Symbols::spelling, typed::specs::Symbols::words))]
fn put_word(out: &mut Writer, code: u16)
    requires { (code < 8) × HasRoom out.old (spaced (word code)) }
    ensures { Put out.old (spaced (word code)) out.new }
{
    match code {
        0 => out.put_text(b" same"),
        1 => out.put_text(b" above"),
        2 => out.put_text(b" below"),
        3 => out.put_text(b" side"),
        OR => out.put_text(b" or"),
        AND => out.put_text(b" and"),
        6 => out.put_text(b" not"),
        _ => out.put_text(b" inv"),
    }
}

// Puts a parenthesis after a blank, where it is needed.
#[tactic(auto, using(puts::proofs::Putting::putting))]
fn put_paren(out: &mut Writer, needed: bool, paren: u8)
    requires { HasRoom out.old (marked needed paren) }
    ensures { Put out.old (marked needed paren) out.new }
{
    if needed {
        out.put_text(&[b' ', paren]);
    }
}

// Puts the expression that the words begin with, in parentheses unless it binds at least as tightly as the level says: 0 is any expression, 1 is one
// without `or` outside parentheses, and 2 an operand of `not` and `inv`. Answers how many words it has.
// Stays: the levels are numbers, since the right operand's is one more than the left's; an enum is no plainer.
pub fn put_expression(words: &[u16], level: u8, out: &mut Writer) -> usize
    requires { Begins words.now × HasRoom out.old (bytes level words.now) }
    ensures extent { result ≡ extent words.now }
    ensures put { Put out.old (bytes level words.now) out.new }
{
    let code = words[0];
    let operands = &words[1..];
    if code < OR {
        put_word(out, code);
        return 1;
    }
    if AND < code {
        put_word(out, code);
        return 1 + put_expression(operands, TIGHTEST, out);
    }
    // `or` binds loosest, then `and`. The left operand must bind at least as tightly as the word that joins the two, and the right one tighter.
    let own = (code - OR) as u8;
    put_paren(out, own < level, b'(');
    let left = put_expression(operands, own, out);
    put_word(out, code);
    let right = put_expression(&operands[left..], own + 1, out);
    put_paren(out, own < level, b')');
    1 + left + right
}
