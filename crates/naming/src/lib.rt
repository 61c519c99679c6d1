#![tactic(auto)]
// The name of a symbol: its bytes, as a part of the text that holds them, the built-in names' or the script's, which the symbol's number decides.
ghost use Rattle.std.specs.Prelude.{◌≡◌, length};
ghost use Rattle.naming.specs.Name.{chosen, PlaceTold, PartTold, NameTold};

// The numbers of a symbol row.
const WIDTH: usize = 2;

// The code where there is no name.
const UNKNOWN: u32 = 15;

// Where a name starts and ends in its text: code 0, or refusal 15 with the other numbers 0. It is no Option: `kaori_name` hands the three numbers on as they are (`PlaceTold`).
#[derive(Drop)]
pub struct PlaceAnswer {
    pub code: u32,
    pub start: u32,
    pub end: u32,
}

// A name: code 0 and its bytes, or refusal 15 and none, by the same code (`NameTold`).
#[derive(Drop)]
pub struct NameAnswer<'a> {
    pub code: u32,
    pub bytes: &'a [u8],
}

// How long the text is that holds a symbol's name.
fn held(names: &[u8], text: &[u8], built: usize, symbol: usize) -> usize
    ensures { result ≡ length (chosen built symbol names.now text.now) }
{
    if built <= symbol {
        return text.len();
    }
    names.len()
}

// Where the name of a symbol starts and ends in its text.
// Ruled out: a row that ends past its text, though the other text is long enough; a refusal that still has the row's numbers.
pub fn place<'a>(
    names: &'a [u8],
    text: &'a [u8],
    symbols: &[u32],
    count: usize,
    built: usize,
    symbol: usize,
) -> PlaceAnswer
    ensures { PlaceTold names.now text.now symbols.now count built symbol result }
{
    let refused = PlaceAnswer {
        code: UNKNOWN,
        start: 0,
        end: 0,
    };
    if symbol >= count {
        return refused;
    }
    if symbol >= symbols.len() / WIDTH {
        return refused;
    }
    let at = WIDTH * symbol;
    let start = symbols[at];
    let end = symbols[at + 1];
    if start > end {
        return refused;
    }
    if end as usize > held(names, text, built, symbol) {
        return refused;
    }
    PlaceAnswer {
        code: 0,
        start,
        end,
    }
}

// The bytes of the name of a symbol.
// Ruled out: a copy of the bytes that stands elsewhere; the built-in text's bytes for the first symbol of the script.
pub fn name<'a>(
    names: &'a [u8],
    text: &'a [u8],
    symbols: &[u32],
    count: usize,
    built: usize,
    symbol: usize,
) -> &'a [u8]
    ensures { PartTold names.entry text.entry symbols.now count built symbol result }
{
    let p = place(names, text, symbols, count, built, symbol);
    let start = p.start as usize;
    let end = p.end as usize;
    if symbol < built {
        return &names[start..end];
    }
    &text[start..end]
}

// The name of a symbol, with the code that tells an empty name from none.
// Ruled out: code 0 with no bytes where the symbol has some; code 15 with bytes.
pub fn named<'a>(
    names: &'a [u8],
    text: &'a [u8],
    symbols: &[u32],
    count: usize,
    built: usize,
    symbol: usize,
) -> NameAnswer<'a>
    ensures { NameTold names.entry text.entry symbols.now count built symbol result }
{
    let p = place(names, text, symbols, count, built, symbol);
    let bytes = name(names, text, symbols, count, built, symbol);
    NameAnswer {
        code: p.code,
        bytes,
    }
}
