// The lines of a listing, put into a text.
ghost use Rattle.std.specs.Prelude.{◌≡◌, ◌++◌, ◌*◌, ◌≤◌, ◌<◌, length};
ghost use Rattle.rules.specs.Descriptions.{most_boards};
ghost use Rattle.puts.specs.Decimals.{decimal};
ghost use Rattle.puts.specs.Texts.{HasRoom, Put};
ghost use Rattle.listing.specs.Listings.{input_line, line_feed, sign, sign_text, refusal_line, heading, pairs_of, pairs};

use puts::Writer;

// The sign of a single relation, by the number of its set, as a lent table has it.
#[tactic(auto, unfolding(crate::specs::Listings::sign))]
fn sign(set: u8) -> u8
    ensures { result ≡ sign set }
{
    match set {
        1 => b'=', // E
        2 => b'<', // A
        4 => b'>', // B
        _ => b'|', // S
    }
}

// The sign of a single relation between blanks.
fn sign_text(set: u8) -> [u8; 3]
    ensures { result ≡ sign_text set }
{
    [b' ', sign(set), b' ']
}

// Puts a number that ends its line.
#[tactic(auto, using(puts::proofs::Putting::putting))]
fn put_last(out: &mut Writer, n: usize)
    requires { HasRoom out.old (decimal n ++ line_feed) }
    ensures { Put out.old (decimal n ++ line_feed) out.new }
{
    out.put_number(n);
    out.put_byte(b'\n');
}

// Puts the line for an input that is no description.
pub(crate) fn put_input(out: &mut Writer)
    requires { HasRoom out.old input_line }
    ensures { Put out.old input_line out.new }
{
    out.put_text(b"input\n");
}

// Puts the line of a refusal.
#[tactic(auto, using(puts::proofs::Putting::putting), unfolding(crate::specs::Listings::refusal_line))]
pub(crate) fn put_refusal(out: &mut Writer, number: u8)
    requires { HasRoom out.old (refusal_line number) }
    ensures { Put out.old (refusal_line number) out.new }
{
    out.put_text(b"refused ");
    put_last(out, usize::from(number));
}

// Puts the first line of a listing, with the number of boards and the tries.
#[tactic(auto, using(puts::proofs::Putting::putting), unfolding(crate::specs::Listings::heading))]
pub(crate) fn put_heading(out: &mut Writer, v: usize, tries: u32)
    requires { HasRoom out.old (heading v tries) }
    ensures { Put out.old (heading v tries) out.new }
{
    out.put_text(b"boards ");
    out.put_number(v);
    out.put_text(b" tries ");
    put_last(out, tries as usize);
}

// Puts the line of a pair of boards: p, the sign and q.
#[tactic(auto, using(puts::proofs::Putting::putting))]
fn put_pair(out: &mut Writer, p: usize, set: u8, q: usize)
    requires { HasRoom out.old (decimal p ++ (sign_text set ++ (decimal q ++ line_feed))) }
    ensures { Put out.old (decimal p ++ (sign_text set ++ (decimal q ++ line_feed))) out.new }
{
    out.put_number(p);
    out.put_text(&sign_text(set));
    put_last(out, q);
}

// Puts the lines of a board's pairs with those after it.
fn put_pairs_of(out: &mut Writer, v: usize, table: &[u8], p: usize)
    requires { (v ≤ most_boards) × (p < v) × (length table.now ≡ v * v) × HasRoom out.old (pairs_of v table.now p) }
    ensures { Put out.old (pairs_of v table.now p) out.new }
{
    for q in p + 1..v {
        put_pair(out, p, table[v * p + q], q);
    }
}

// Puts the lines of all pairs of boards.
pub(crate) fn put_pairs(out: &mut Writer, v: usize, table: &[u8])
    requires { (v ≤ most_boards) × (length table.now ≡ v * v) × HasRoom out.old (pairs v table.now) }
    ensures { Put out.old (pairs v table.now) out.new }
{
    for p in 0..v {
        put_pairs_of(out, v, table, p);
    }
}
