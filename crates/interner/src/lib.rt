#![tactic(auto)]
// The symbol table: a port of string_interner.rs. A row of the lent room is the first place of a name in the text; its symbol is its number.
// Beside the rows stands their index: each row is in one of `size` buckets, which its bytes decide, and a name is looked for in its own bucket alone, the newest row
// first, since scripts repeat the name that they have just used.
ghost use Rattle.std.specs.Prelude.{◌<◌, ◌≡◌};
ghost use Rattle.grammar.specs.Handle.{absent};
ghost use Rattle.grammar.specs.Table.{Part, Row, start_of, end_of, word as word-of};
ghost use Rattle.interner.specs.Index.{mix as mix-of, bucket as bucket-of, Linkable, linked};
ghost use Rattle.interner.specs.Interns.{used, Ready, Enters};
ghost use Rattle.interner.specs.Search.{Compared, Wanted, Sought};

// Numbers a row.
const WIDTH: usize = 2;

// What is mixed is below this.
const MIXED: usize = 65536;

// The symbol of a text, and how many rows are in use now.
#[derive(Drop)]
pub struct Interned {
    pub symbol: u32,
    pub count: usize,
}

// Four bytes and a length, mixed.
fn mix(a: u8, b: u8, c: u8, d: u8, n: usize) -> usize
    ensures { result ≡ mix-of a b c d n }
{
    let bytes = 44623 * a as usize + 15823 * b as usize + 10417 * c as usize + 48761 * d as usize;
    (bytes + 55381 * (n % 256)) % MIXED
}

// The bucket of a word, by four of its bytes and its length: a place of the index, one of `size` from `size` on. It asks for a size from 1 on that a u32 has.
// Ruled out: a place below `size`; two places for the same bytes.
pub fn bucket(word: &[u8], size: usize) -> usize
    requires { (0 < size) × (size < absent) }
    ensures { result ≡ bucket-of size word.now }
{
    let n = word.len();
    if n == 0 {
        return size;
    }
    let quarter = n / 4;
    size + mix(
        word[quarter],
        word[n / 2],
        word[n - 1 - quarter],
        word[n - 1],
        n,
    ) * size
        / MIXED
}

// So many bytes at a word's end are compared one by one.
const ENDING: usize = 8;

// Whether two words are the same: lengths first, then bytes, the last one first, since names often start alike. Before the ending the rest is compared at once.
fn same(row: &[u8], word: &[u8]) -> bool
    ensures { Compared row.now word.now result }
{
    if row.len() != word.len() {
        return false;
    }
    let rest = word.len().saturating_sub(ENDING);
    for i in (rest..word.len()).rev() {
        if row[i] != word[i] {
            return false;
        }
    }
    row[..rest] == word[..rest]
}

// Whether row `i` has the bytes of a word.
fn holds(text: &[u8], symbols: &[u32], i: usize, word: &[u8]) -> bool
    requires { Row symbols.now i × Part text.now (start_of symbols.now i) (end_of symbols.now i) }
    ensures { Compared (word-of text.now symbols.now i) word.now result }
{
    let from = symbols[WIDTH * i] as usize;
    let upto = symbols[WIDTH * i + 1] as usize;
    same(&text[from..upto], word)
}

// The row of the text that has the bytes of a word, whose bucket is `place`. The newest row of the bucket is looked at first. It asks that the rows in use are parts of
// their text with different bytes, and that `index` is theirs (`Wanted`).
// Ruled out: a row whose bytes are others; None where an older row of the bucket has the bytes.
pub fn find(
    text: &[u8],
    symbols: &[u32],
    index: &[u32],
    count: usize,
    word: &[u8],
    place: usize,
) -> Option<usize>
    requires { Wanted text.now word.now count place symbols.now index.now }
    ensures { Sought text.now word.now (used count symbols.now) result }
{
    let mut next = index[place] as usize;
    while 0 < next {
        let i = next - 1;
        if holds(text, symbols, i, word) {
            return Some(i);
        }
        next = index[i] as usize;
    }
    None
}

// Row `count` becomes the newest of the bucket `place`. It asks that the index has both, and that a u32 has the number of rows then (`Linkable`).
// Ruled out: a bucket that the new row alone is in; a row that is its own next older one.
pub fn link(index: &mut [u32], count: usize, place: usize)
    requires { Linkable count place index.old }
    ensures { index.new ≡ linked count place index.old }
{
    let older = index[place];
    index[count] = older;
    index[place] = count as u32 + 1;
}

// The symbol of the text from `start` up to `end`: `first` and the number of the row that has its bytes, or of a new last row; or None, where it would be a new one and
// the room has none. It asks that this is a part of the text, that the rows in use are parts with different bytes, that `index` is theirs, and for room for one row more there (`Ready`).
// Ruled out: a row whose text has the same length and other bytes; a second row for a text that has one; a new row that the index does not have; a symbol without a row.
pub fn get_or_intern(
    text: &[u8],
    symbols: &mut [u32],
    index: &mut [u32],
    first: u32,
    size: usize,
    count: usize,
    start: u32,
    end: u32,
) -> Option<Interned>
    requires { Ready text.now start end first size count symbols.old index.old }
    ensures { Enters text.now start end first size count symbols.old symbols.new index.old index.new result }
{
    let word = &text[start as usize..end as usize];
    let place = bucket(word, size);
    if let Some(i) = find(text, symbols, index, count, word, place) {
        let symbol = first + i as u32;
        return Some(Interned { symbol, count });
    }
    if symbols.len() < WIDTH * count + WIDTH {
        return None;
    }
    link(index, count, place);
    symbols[WIDTH * count] = start;
    symbols[WIDTH * count + 1] = end;
    Some(Interned {
        symbol: first + count as u32,
        count: count + 1,
    })
}
