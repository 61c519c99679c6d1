// What a person may have meant at a refused place, and what to type: one line, by a table. The first line of the table that fits is the hint.
use crate::could::put_kind;
use crate::report::put_spot;
use crate::run::in_word;
use crate::seen::{Seen, text_from};
use diagnostics::line::{NEWLINE, place};
use page::Line;
use page::hint::Style;
use reading::codes;
use token::kinds;

// A line of the table has four marks, spellings, a tab and the hint. The table stays a text: an array of structs would say the same at some times the length.
// The first mark is the place where it looks: 0 the refused token, 1 the one before, 2 the one before that, 3 the first of the statement, 4 the name of the call before. Then come
// the code, the kind that was required and a fact, as `has_code`, `asks` and `Facts` have them; a dot is any. One of the spellings has to stand at the place, where there are any.
// In the hint \x01 stands for the refused bytes in hex, \x02 and \x08 for the place that is named and its line, \x03 and \x07 for the places of a `}` and of the `{` that it closes,
// \x04 for the refused letter in ASCII, \x05 for the sign before the refused token, and \x06 for the refused token's kind.
const HINTS: &[u8] = b"\
    0..n\tKaori has no comments: one may start at \x02\n\
    0e..// /*\tKaori has no comments, and no `//` or `/*`\n\
    1e..// /*\tKaori has no comments, and no `//` or `/*`\n\
    1k{.#\ta `#` starts a map, `#{ key: value }`; Kaori has no comments\n\
    0s..&&\tfor `&&` type `and`\n\
    0s..&\tKaori has no `&`: `and` joins two conditions\n\
    0s..!\tfor `!` type `not`; not equal is `!=`\n\
    0s..' `\ta string stands between `\"` and `\"`\n\
    0s..[ ]\tKaori has no lists in `[` and `]`; a map is `#{ key: value }`\n\
    0s..?\tKaori has no `?`: type `if a { b } else { c }`\n\
    0s..~=\tnot equal is `!=`\n\
    0s..@ $\ta name has letters, digits and `_` alone\n\
    0s..\\\"\toutside a string a quote has no `\\` before it\n\
    0s..\\\ta statement goes on in the next line by itself, up to its `;`\n\
    0u.b\tthe string that opens at \x02 goes on past the end of its line: a `\"` may be missing there\n\
    0u.e\tinside a string `\\\"` is a quote and does not end it\n\
    0h.z\xef\xbb\xbf\t\x01 is a byte order mark: save the file without one\n\
    0h..\xe2\x80\x98 \xe2\x80\x99 \xe2\x80\x9a \xe2\x80\x9c \xe2\x80\x9d \xe2\x80\x9e \xc2\xab \xc2\xbb\t\x01 is a quote that Kaori does not have: type `\"`, or `'` inside a string\n\
    0h..\xe2\x80\x90 \xe2\x80\x91 \xe2\x80\x92 \xe2\x80\x93 \xe2\x80\x94 \xe2\x88\x92\t\x01 is a dash that Kaori does not have: type `-`\n\
    0h..\xc2\xa0 \xe2\x80\xaf\t\x01 is a no-break space: type a blank\n\
    0h..\xe2\x80\x8b \xef\xbb\xbf \xc2\xad\t\x01 is not seen on the screen: take it out\n\
    0h..\xe2\x80\xa6\t\x01 is three dots in one: type `...`\n\
    0h..\xc3\x97\t\x01 is a sign that Kaori does not have: type `*`\n\
    0h..\xc3\xb7\t\x01 is a sign that Kaori does not have: type `/`\n\
    0h..\xe2\x89\xa0\t\x01 is a sign that Kaori does not have: type `!=`\n\
    0h..\xe2\x89\xa4\t\x01 is a sign that Kaori does not have: type `<=`\n\
    0h..\xe2\x89\xa5\t\x01 is a sign that Kaori does not have: type `>=`\n\
    0h.a\t\x01 is no ASCII letter: type `\x04`, in strings too\n\
    0h..\t\x01 is not ASCII: Kaori reads ASCII alone, in strings too\n\
    0k.g||\t`||` joins nothing: type `or`\n\
    0k.g|\t`|` joins nothing: type `or`\n\
    1e..+= -= *= /= %=\tKaori has no `\x05=`: type `x = x \x05 1`\n\
    2e..++ --\tKaori has no `\x05\x05`: type `x = x \x05 1`\n\
    1e..===\tequal is `==`\n\
    1e..!== <>\tnot equal is `!=`\n\
    1e..**\tKaori has no `**`: type `a * a`\n\
    0e..=<\tat most is `<=`\n\
    0e..=>\tat least is `>=`; a lambda is `|x| x + 1`\n\
    1e..=>\tat least is `>=`; a lambda is `|x| x + 1`\n\
    0e..->\tKaori has no `->`: a function is `fun f(a) { .. }`, a lambda `|a| a + 1`\n\
    1e..->\tKaori has no `->`: a function is `fun f(a) { .. }`, a lambda `|a| a + 1`\n\
    0e..:=\tfor `:=` type `=`\n\
    0k=.==\ta value is given by one `=`\n\
    0k,c=\tin a map a `:` stands between a key and its value\n\
    0k,f=\tto compare type `==`; an argument has no name\n\
    0k,f:\tan argument has no name: type its value alone\n\
    0k,p= :\ta parameter is a name alone\n\
    0k;g=\tto compare type `==`; to give another value start a new statement\n\
    0k.g=\tto compare type `==`\n\
    0k.gis\tequal is `==`, and not equal `!=`\n\
    0k.k\ta map starts with `#{`; a `{` alone opens a block\n\
    0k=.;\ta name gets its value at once: `let x = nil;`\n\
    0k=.:\ta name has no type: `let x = 1;`\n\
    0k=.,\ta statement makes one name: `let x = 1; let y = 2;`\n\
    3k;lelif elseif elsif\tfor one more condition type `else if`\n\
    3k;lfunction def func fn sub\tfor a function type `fun f(a) { .. }`\n\
    3k;lvar local int dim\tto make a name type `let x = 1;`\n\
    3k;lswitch match case select\tfor a choice type `if a { .. } else if b { .. }`\n\
    3k;ldo loop repeat until foreach\tthe one loop is `while a { .. }`\n\
    3k;lclass struct\tKaori has no classes; a map is `#{ key: value }`\n\
    3k;lend fi done endif\ta block ends with its `}` alone\n\
    3k;lLET Let IF If ELSE Else WHILE While RETURN Return FUN Fun\tKaori's own words are typed in small letters: `and`, `let`, `if`\n\
    4k.ofunction func fn def\ta function without a name is a lambda: `|a, b| { .. }`\n\
    0o..fun\ta function without a name is a lambda: `|a, b| { .. }`\n\
    0e..else\tan `else` stands right after the `}` of its `if`, without a `;`\n\
    0knw\t\x06 is a word of Kaori itself: take another name\n\
    0o.y\t\x06 is a word of Kaori itself: take another name\n\
    0k.gAND And OR Or\tKaori's own words are typed in small letters: `and`, `let`, `if`\n\
    1k.gNOT Not\tKaori's own words are typed in small letters: `and`, `let`, `if`\n\
    0k.gnot\tnot equal is `!=`; a `not` stands before what it takes\n\
    0k.gmod\tfor the remainder type `%`\n\
    1o.rreturn\tin edition 1 a `return` takes a value: `return nil;`\n\
    0o.t\ta number starts with a digit: `0.5`\n\
    0k.d\ta number is written as `1000`, `0.5` or `1e3`\n\
    0e.x}\tno `{` is open here: this `}` closes nothing\n\
    0e.x)\tno `(` is open here: this `)` closes nothing\n\
    0e.s\tthe `}` at \x03 closes what opens at \x07: a `}` may be missing before it\n\
    0k,f;\ta `)` may be missing before the `;`\n\
    0k,q;\tthe entries of a map are parted by `,`\n\
    0k;v\ta call has parentheses: `f(a);`\n\
    0k;m\ta `;` may be missing at the end of line \x08\n\
    3k..import\tan import is `import station.screen: show, beep;`\n\
    0k;.,\ta `,` ends no statement: type `;` and start the next one\n\
    0o.h\tan operand may be missing at the end of line \x08\n\
    0k,i\ta `)` or a `,` may be missing at the end of line \x08\n\
    0k,j\ta `,` or a `}` may be missing at the end of line \x08\n\
    0k.g. (\t`.` and `(` follow a name: give it one first, by `let`\n\
    0k{.then do :\tno `then`, `do` or `:` stands before a body: it opens with `{`\n\
    0k{.\tthe body of an `if`, an `else`, a `while` or a `fun` stands between `{` and `}`\n\
    0f..\tKaori has no `for` yet: count with `while`, or hand a lambda to a function: `all.each(|s| close(s));`\n\
    0d..\ta script is nested at most 64 deep: give an inner part a name by `let` or `fun`\n\
    0t..\tthe 4,096th token stands in line \x08\n\
    ";

const TAB: u8 = 9;

// The letters of Latin-1 from 192 on, in ASCII: a cell of two bytes each. It stays one text, since 64 slices would be no plainer.
const LETTERS: [u8; 128] = *b"\
    A A A A A A AEC E E E E I I I I D N O O O O O x O U U U U Y THss\
    a a a a a a aec e e e e i i i i d n o o o o o / o u u u u y thy ";

// Whether a spelling stands at the start of these bytes; where it ends as a word does, the word has to end there too.
fn stands(spelling: &[u8], rest: &[u8]) -> bool {
    let Some(after) = rest.strip_prefix(spelling) else {
        return false;
    };
    match (spelling, after) {
        ([.., last], [next, ..]) => !(in_word(*last) && in_word(*next)),
        _ => true,
    }
}

impl Seen<'_> {
    // Whether a code of the table is that of the refusal, whose code stays a number of the C interface's. A string that is not closed has its own among the bytes that
    // start no token.
    fn has_code(&self, mark: u8) -> bool {
        match mark {
            b'.' => true,
            b't' => self.code == 1,
            b'h' => self.code == 5,
            b'k' => self.code == codes::KIND_REQUIRED,
            b'o' => self.code == codes::OPERAND_REQUIRED,
            b'e' => matches!(self.code, codes::KIND_REQUIRED | codes::OPERAND_REQUIRED),
            b'f' => self.code == codes::STARTS_WITH_FOR,
            b'd' => self.code == codes::TOO_DEEP,
            b'u' => self.code == 16 && self.text.get(self.here) == Some(&b'"'),
            b's' => self.code == 16 && self.text.get(self.here) != Some(&b'"'),
            _ => false,
        }
    }

    // Whether a sign of the table is that of the kind that was required, which stays a number of the C interface's too.
    fn asks(&self, mark: u8) -> bool {
        match mark {
            b'.' => true,
            b';' => self.asked == kinds::SEMICOLON,
            b',' => self.asked == kinds::COMMA,
            b'{' => self.asked == kinds::LEFT_BRACE,
            b'=' => self.asked == kinds::ASSIGN,
            b'n' => self.asked == kinds::IDENTIFIER,
            _ => false,
        }
    }

    // Whether a fact of the table holds.
    fn has_fact(&self, mark: u8) -> bool {
        mark == b'.' || self.facts.has(mark)
    }

    // The text at the place where a line of the table looks; none where there is no such place.
    fn text_at(&self, mark: u8) -> &[u8] {
        let place = match mark {
            b'1' => self.last,
            b'2' => self.second,
            b'3' => self.lead,
            b'4' => self.callee,
            _ => return text_from(self.text, self.here),
        };
        match place {
            Some(offset) => text_from(self.text, offset),
            None => b"",
        }
    }

    // The hint of a line of the table, if the line fits.
    fn hint_of<'a>(&self, line: &'a [u8]) -> Option<&'a [u8]> {
        let [place, code, asked, fact, rest @ ..] = line else {
            return None;
        };
        if !self.has_code(*code) || !self.asks(*asked) || !self.has_fact(*fact) {
            return None;
        }
        let mut parts = rest.split(|byte| *byte == TAB);
        let spellings = parts.next()?;
        let at = self.text_at(*place);
        if spellings
            .split(|byte| *byte == b' ')
            .any(|spelling| stands(spelling, at))
        {
            parts.next()
        } else {
            None
        }
    }

    // The hint of the first line of the table that fits.
    fn hint(&self) -> Option<&'static [u8]> {
        HINTS
            .split(|byte| *byte == NEWLINE)
            .find_map(|line| self.hint_of(line))
    }

    // The bytes of a letter that is not ASCII, in hex: the first, and up to three that go on with it.
    fn put_bytes(&self, line: &mut Line) {
        line.put(b"byte");
        let [first, rest @ ..] = text_from(self.text, self.here) else {
            return;
        };
        line.put_escape(b" ", *first);
        for byte in rest.iter().take(3).take_while(|byte| **byte / 64 == 2) {
            line.put_escape(b" ", *byte);
        }
    }

    // A letter of Latin-1 in ASCII, by the second of its bytes.
    fn put_letter(&self, line: &mut Line) {
        if let [_, second, ..] = text_from(self.text, self.here) {
            let from = 2 * (*second % 64) as usize;
            line.put_cell(&LETTERS[from..from + 2]);
        }
    }

    // Line and column of a place.
    fn put_place(&self, offset: Option<usize>, line: &mut Line) {
        if let Some(offset) = offset {
            put_spot(place(self.text, offset), line);
        }
    }

    // The line of the place that is named.
    fn put_mark(&self, line: &mut Line) {
        if let Some(mark) = self.mark {
            line.put_number(place(self.text, mark).line);
        }
    }

    // The sign before the refused token.
    fn put_sign(&self, line: &mut Line) {
        if let Some(sign) = self.last.and_then(|last| self.text.get(last)) {
            line.put_byte(*sign);
        }
    }

    // A byte of a hint, or what it stands for.
    fn put_piece(&self, byte: u8, line: &mut Line) {
        match byte {
            1 => self.put_bytes(line),
            2 => self.put_place(self.mark, line),
            3 => self.put_place(self.slip.map(|slip| slip.closer), line),
            4 => self.put_letter(line),
            5 => self.put_sign(line),
            6 => put_kind(self.found, line),
            7 => self.put_place(self.slip.map(|slip| slip.opener), line),
            8 => self.put_mark(line),
            _ => line.put_byte(byte),
        }
    }
}

// Shows the hint for what is seen, if there is one. The answer is the style of the next line.
pub(crate) fn show_hint(seen: &Seen, style: Style, line: &mut Line) -> Style {
    let Some(hint) = seen.hint() else {
        return style;
    };
    line.put(b"  hint: ");
    for &byte in hint {
        seen.put_piece(byte, line);
    }
    line.end_hint(style)
}
