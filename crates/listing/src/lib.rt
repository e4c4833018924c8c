// What the program prints for the bytes that it read: everything that it decides is decided here.
#![tactic(auto)]

mod texts;

ghost use Rattle.std.specs.Prelude.{◌≡◌, replicate, ◌≤◌};
ghost use Rattle.rules.specs.Descriptions.{most_boards};
ghost use Rattle.rules.specs.Search.{plain_order};
ghost use Rattle.rules.specs.Calls.{searching};
ghost use Rattle.rules.specs.Tables.{filled};
ghost use Rattle.puts.specs.Texts.{HasRoom, Put};
ghost use Rattle.listing.specs.Listings.{budget, told, solved, listing, input_line};
ghost use Rattle.listing.specs.Pages.{page_bytes, page};

use crate::texts::{put_heading, put_input, put_pairs, put_refusal};
use answers::limits::MOST_WORDS;
use answers::rooms::words_room;
use puts::Writer;
use relations::full_room;

// The bytes of a page, used or not.
pub const PAGE_BYTES: usize = 1024;

// The bytes of the longest description, two for each word.
pub const MOST_BYTES: usize = 2 * MOST_WORDS;

// The tries that a search is allowed.
const BUDGET: u32 = 10000;

// A page holds the bytes that are printed, and zeros after them.
// Stays: no heap, and a listing may not fail, so it is no `Vec`. A method for the bytes in use would need the bound of their number in each contract, or in
// the type: that is no plainer than the two fields that callers read.
#[derive(Drop)]
pub struct Page {
    pub text: [u8; PAGE_BYTES],
    pub used: usize,
}

// A page of zeros.
fn blank() -> [u8; PAGE_BYTES]
    ensures { result ≡ replicate page_bytes 0 }
{
    [0; PAGE_BYTES]
}

// Searches the full table of v boards that it is lent, and puts what is printed for that search.
fn put_solved(out: &mut Writer, words: &[u16], v: usize, table: &mut [u8])
    requires { (v ≤ most_boards) × (table.old ≡ filled v) × HasRoom out.old (told v (searching plain_order words.now (filled v) budget)) }
    ensures { Put out.old (told v (searching plain_order words.now (filled v) budget)) out.new }
{
    match solver::search(words, table, BUDGET) {
        Ok(tries) => {
            put_heading(out, v, tries);
            put_pairs(out, v, table);
        }
        Err(refused) => put_refusal(out, u8::from(refused.fault)),
    }
}

// Puts what is printed for the words of a description.
fn put_words(out: &mut Writer, words: &[u16])
    requires { HasRoom out.old (solved words.now) }
    ensures { Put out.old (solved words.now) out.new }
{
    if let Err(refused) = solver::read(words) {
        put_refusal(out, u8::from(refused.fault));
        return;
    }
    let v = usize::from(words[0]);
    let n = v * v;
    let mut table = full_room();
    put_solved(out, words, v, &mut table[..n]);
}

// Puts what is printed for the bytes that were read.
fn put_listing(out: &mut Writer, bytes: &[u8])
    requires { HasRoom out.old (listing bytes.now) }
    ensures { Put out.old (listing bytes.now) out.new }
{
    if bytes.len() % 2 != 0 || MOST_BYTES < bytes.len() {
        put_input(out);
        return;
    }
    let n = bytes.len() / 2;
    let mut words = words_room();
    words::take_words(bytes, &mut words[..n]);
    put_words(out, &words[..n]);
}

// The page for the bytes that were read.
pub fn listing(bytes: &[u8]) -> Page
    ensures { result ≡ page (listing bytes.now) }
{
    let mut text = blank();
    let mut out = Writer::new(&mut text);
    put_listing(&mut out, bytes);
    let used = out.at();
    Page { text, used }
}

// The page where the input could not be read.
pub fn unread() -> Page
    ensures { result ≡ page input_line }
{
    let mut text = blank();
    let mut out = Writer::new(&mut text);
    put_input(&mut out);
    let used = out.at();
    Page { text, used }
}
