// A line of a case file, taken apart into its fields, which stand between spaces.
//
// A field is a word, as `next_host` or `20`, the sign `=>`, or bytes. Bytes are items with nothing between them: texts, as
// `"a\n"`, lists of four-byte numbers, as `[20 10]`, and bytes in hexadecimal, as `{3003 0201 ff}`. `*` and a number after an
// item says how often it stands there, as `"a"*253`. The escapes of a text are `\n`, `\r`, `\t`, `\\`, `\"` and `\xHH`. A lone `-`
// is no bytes.
// A name and `=`, as in `clock=1000`, are a field too; the field after it, its value, follows without a space.
ghost use Rattle.std.specs.Prelude.{◌≤◌};

use crate::failure::Failure;
use crate::failure::Failure::{OutOfMemory, Unreadable};
use std::alloc::{AllocError, Global};
use std::mem;

const MOST_FIELDS: usize = 96;

// How many bytes of copies are put in their places by one call, or more.
const BLOCK: usize = 4096;

#[derive(Clone, Copy, PartialEq, Eq)]
pub enum Kind {
    Word,
    // a word that is a number below 2^64
    Number(u64),
    Bytes,
    // a name before its value
    Name,
    // `=>`
    Arrow,
}

// A field: its kind, and its bytes, decoded.
#[derive(Drop)]
pub struct Field {
    pub kind: Kind,
    pub bytes: Vec<u8>,
}

// The fields of a line, or of one that can't be read those before the place where it breaks, and how many bytes more there was room for.
// A broken line's fields count too: they say which call it names, and whether it is a default.
#[derive(Drop)]
pub struct Line {
    pub is_whole: bool,
    pub fields: Vec<Field>,
    pub room: usize,
}

// The fields of a line from some field on, which are read in turn. A field of another kind than is asked for makes the line one that can't be read.
#[derive(Clone, Copy)]
pub struct Fields<'a> {
    rest: &'a [Field],
}

// What the next byte of a line belongs to.
#[derive(Clone, Copy)]
enum Mode {
    // the spaces before a field
    Between,
    // `>` after `=`
    Sign,
    // a space after `-` or `=>`: the field's kind
    Space(Kind),
    // a word, and the number that it is so far, if it is one
    Word(Option<u64>),
    // a value, right after its name and `=`
    Value,
    Text,
    Escape,
    HighDigit,
    LowDigit(u8),
    // bytes in hexadecimal, and the second digit of one: the first is worth so much
    Hex,
    HexDigit(u8),
    List,
    ListNumber(u64),
    // what follows an item
    Item,
    Star,
    Times(u64),
}

// How far a line has been read.
#[derive(Drop)]
struct Reader {
    alloc: Global,
    line: Line,
    mode: Mode,
    // the bytes of the field under way: those before its last item, and those of this item
    bytes: Vec<u8>,
    item: Vec<u8>,
    // how many bytes more there is room for
    room: usize,
}

impl Line {
    // The fields of a line, where there is room for so many decoded bytes.
    pub(crate) fn read(alloc: Global, text: &[u8], room: usize) -> Result<Line, AllocError> {
        let mut r = Reader::new(alloc, room);
        match r.read(text) {
            Ok(()) => r.line.is_whole = true,
            Err(OutOfMemory(e)) => return Err(e),
            Err(_) => {}
        }
        Ok(r.into_line())
    }

    // The name of a line's case: its second field, or the first where that is no word.
    pub(crate) fn name(&self) -> &[u8] {
        match self.fields.get(1) {
            Some(f) if f.kind == Kind::Word => f.bytes.as_slice(),
            _ => self.bytes_at(0),
        }
    }

    // The bytes of field k, or none where there is no such field.
    pub(crate) fn bytes_at(&self, k: usize) -> &[u8] {
        match self.fields.get(k) {
            Some(f) => f.bytes.as_slice(),
            None => &[],
        }
    }

    // The value of field k, or 0 where it is no number.
    pub(crate) fn number_at(&self, k: usize) -> u64 {
        match self.fields.get(k).map(|f| f.kind) {
            Some(Kind::Number(n)) => n,
            _ => 0,
        }
    }

    // The fields of a whole line, after the word that names its call.
    pub(crate) fn arguments(&self) -> Result<Fields<'_>, Failure> {
        if !self.is_whole {
            return Err(Unreadable);
        }
        let mut fields = Fields { rest: &self.fields };
        fields.word()?;
        Ok(fields)
    }

    // The same, after the word that names the case too.
    pub(crate) fn case(&self) -> Result<Fields<'_>, Failure> {
        let mut fields = self.arguments()?;
        fields.word()?;
        Ok(fields)
    }
}

impl<'a> Fields<'a> {
    fn next(&mut self) -> Result<&'a Field, Failure> {
        let (first, rest) = self.rest.split_first().ok_or(Unreadable)?;
        self.rest = rest;
        Ok(first)
    }

    fn bytes_of(&mut self, kind: Kind) -> Result<&'a [u8], Failure> {
        let f = self.next()?;
        if f.kind == kind {
            Ok(&f.bytes)
        } else {
            Err(Unreadable)
        }
    }

    pub(crate) fn word(&mut self) -> Result<&'a [u8], Failure> {
        self.bytes_of(Kind::Word)
    }

    pub(crate) fn bytes(&mut self) -> Result<&'a [u8], Failure> {
        self.bytes_of(Kind::Bytes)
    }

    pub(crate) fn number(&mut self) -> Result<u64, Failure> {
        match self.next()?.kind {
            Kind::Number(n) => Ok(n),
            _ => Err(Unreadable),
        }
    }

    // `=>`, and the numbers of the answer that a case asks for.
    pub(crate) fn answer<const N: usize>(&mut self) -> Result<[u64; N], Failure> {
        self.bytes_of(Kind::Arrow)?;
        let mut numbers = [0; N];
        for n in numbers.iter_mut() {
            *n = self.number()?;
        }
        Ok(numbers)
    }

    pub(crate) fn end(self) -> Result<(), Failure> {
        if self.rest.is_empty() {
            Ok(())
        } else {
            Err(Unreadable)
        }
    }
}

impl Reader {
    fn new(alloc: Global, room: usize) -> Reader {
        let line = Line {
            is_whole: false,
            fields: Vec::new(alloc),
            room,
        };
        Reader {
            alloc,
            line,
            mode: Mode::Between,
            bytes: Vec::new(alloc),
            item: Vec::new(alloc),
            room,
        }
    }

    fn into_line(self) -> Line {
        let Reader {
            alloc: _,
            line,
            mode: _,
            bytes: _,
            item: _,
            room: _,
        } = self;
        line
    }

    // Reads the whole line. Its end ends a field as a space does; a line that ends within a field is broken.
    fn read(&mut self, text: &[u8]) -> Result<(), Failure> {
        for b in text {
            self.step(*b)?;
        }
        self.step(b' ')?;
        match self.mode {
            Mode::Between => Ok(()),
            _ => Err(Unreadable),
        }
    }

    // What the next byte does in each mode: the grammar of a line.
    fn step(&mut self, b: u8) -> Result<(), Failure> {
        self.mode = match self.mode {
            Mode::Between => self.at_field(b)?,
            Mode::Sign if b == b'>' => Mode::Space(Kind::Arrow),
            Mode::Space(kind) if b == b' ' => self.end_field(kind)?,
            Mode::Sign | Mode::Space(_) => return Err(Unreadable),
            Mode::Word(so_far) => self.in_word(so_far, b)?,
            Mode::Value if matches!(b, b' ' | b'=') => return Err(Unreadable),
            Mode::Value => self.at_field(b)?,
            Mode::Text => self.in_text(b)?,
            Mode::Escape => self.in_escape(b)?,
            Mode::HighDigit => Mode::LowDigit(digit(b, 16)?),
            Mode::LowDigit(high) => self.put(high << 4 | digit(b, 16)?, Mode::Text)?,
            Mode::Hex => in_hex(b)?,
            Mode::HexDigit(high) => self.put(high << 4 | digit(b, 16)?, Mode::Hex)?,
            Mode::List => in_list(b)?,
            Mode::ListNumber(so_far) => self.in_list_number(so_far, b)?,
            Mode::Item => self.after_item(b)?,
            Mode::Star => Mode::Times(with_digit(0, b)?),
            Mode::Times(so_far) => self.in_times(so_far, b)?,
        };
        Ok(())
    }

    fn at_field(&mut self, b: u8) -> Result<Mode, Failure> {
        match b {
            b' ' => Ok(Mode::Between),
            b'"' => self.begin(Mode::Text),
            b'[' => self.begin(Mode::List),
            b'{' => self.begin(Mode::Hex),
            b'-' => Ok(Mode::Space(Kind::Bytes)),
            b'=' => Ok(Mode::Sign),
            _ => self.put(b, Mode::Word(with_digit(0, b).ok())),
        }
    }

    fn in_word(&mut self, so_far: Option<u64>, b: u8) -> Result<Mode, Failure> {
        match (b, so_far) {
            (b'=', _) => {
                self.end_field(Kind::Name)?;
                Ok(Mode::Value)
            }
            (b' ', Some(n)) => self.end_field(Kind::Number(n)),
            (b' ', None) => self.end_field(Kind::Word),
            _ => self.put(b, Mode::Word(so_far.and_then(|n| with_digit(n, b).ok()))),
        }
    }

    // A control byte in a text has to be written as an escape.
    fn in_text(&mut self, b: u8) -> Result<Mode, Failure> {
        match b {
            b'"' => Ok(Mode::Item),
            b'\\' => Ok(Mode::Escape),
            _ if b.is_ascii_control() => Err(Unreadable),
            _ => self.put(b, Mode::Text),
        }
    }

    fn in_escape(&mut self, b: u8) -> Result<Mode, Failure> {
        match b {
            b'n' => self.put(b'\n', Mode::Text),
            b'r' => self.put(b'\r', Mode::Text),
            b't' => self.put(b'\t', Mode::Text),
            b'\\' | b'"' => self.put(b, Mode::Text),
            b'x' => Ok(Mode::HighDigit),
            _ => Err(Unreadable),
        }
    }

    fn in_list_number(&mut self, so_far: u64, b: u8) -> Result<Mode, Failure> {
        match b {
            b' ' => self.put_number(so_far, Mode::List),
            b']' => self.put_number(so_far, Mode::Item),
            _ => Ok(Mode::ListNumber(with_digit(so_far, b)?)),
        }
    }

    fn after_item(&mut self, b: u8) -> Result<Mode, Failure> {
        match b {
            b'*' => Ok(Mode::Star),
            b' ' => self.end_field(Kind::Bytes),
            b'"' | b'[' | b'{' => self.at_field(b),
            _ => Err(Unreadable),
        }
    }

    fn in_times(&mut self, so_far: u64, b: u8) -> Result<Mode, Failure> {
        match b {
            b' ' | b'"' | b'[' | b'{' => {
                self.repeat(so_far)?;
                self.after_item(b)
            }
            _ => Ok(Mode::Times(with_digit(so_far, b)?)),
        }
    }

    // An item begins: the one before it, if there is one, is done.
    fn begin(&mut self, mode: Mode) -> Result<Mode, Failure> {
        self.bytes.extend_from_slice(&self.item)?;
        self.item.clear();
        Ok(mode)
    }

    fn end_field(&mut self, kind: Kind) -> Result<Mode, Failure> {
        if self.line.fields.len() >= MOST_FIELDS {
            return Err(Unreadable);
        }
        let mode = self.begin(Mode::Between)?;
        let bytes = mem::replace(&mut self.bytes, Vec::new(self.alloc));
        self.line.fields.push(Field { kind, bytes })?;
        self.line.room = self.room;
        Ok(mode)
    }

    // Takes up room for so many bytes more.
    fn take(&mut self, size: usize) -> Result<(), Failure> {
        self.room = self.room.checked_sub(size).ok_or(Unreadable)?;
        Ok(())
    }

    fn put(&mut self, b: u8, mode: Mode) -> Result<Mode, Failure> {
        self.take(1)?;
        self.item.push(b)?;
        Ok(mode)
    }

    // Puts a number below 2^32 as four bytes, high first.
    fn put_number(&mut self, n: u64, mode: Mode) -> Result<Mode, Failure> {
        let n = u32::try_from(n).map_err(|_| Unreadable)?;
        self.take(4)?;
        self.item.extend_from_slice(&n.to_be_bytes())?;
        Ok(mode)
    }

    // The last item is to stand there so many times in all.
    fn repeat(&mut self, times: u64) -> Result<(), Failure> {
        let size = self.item.len();
        if size == 0 {
            return Ok(());
        }
        let all = size.checked_mul(times as usize).ok_or(Unreadable)?;
        self.room = self.room.saturating_add(size);
        self.take(all)?;
        // Copies of a short item are put there some at a time: twice as many from turn to turn, up to a block.
        let mut copies = mem::replace(&mut self.item, Vec::new(self.alloc));
        let mut left = times;
        while left > 1 && copies.len() < BLOCK {
            if left % 2 == 1 {
                self.bytes.extend_from_slice(&copies)?;
            }
            left /= 2;
            copies = copies.repeat(self.alloc, 2)?;
        }
        for _ in 0..left {
            self.bytes.extend_from_slice(&copies)?;
        }
        Ok(())
    }
}

// Spaces may stand between bytes in hexadecimal.
fn in_hex(b: u8) -> Result<Mode, Failure> {
    match b {
        b' ' => Ok(Mode::Hex),
        b'}' => Ok(Mode::Item),
        _ => Ok(Mode::HexDigit(digit(b, 16)?)),
    }
}

fn in_list(b: u8) -> Result<Mode, Failure> {
    match b {
        b' ' => Ok(Mode::List),
        b']' => Ok(Mode::Item),
        _ => Ok(Mode::ListNumber(with_digit(0, b)?)),
    }
}

// What a digit is worth.
fn digit(b: u8, radix: u32) -> Result<u8, Failure>
    requires { (2 ≤ radix) × (radix ≤ 36) }
{
    let worth = char::from(b).to_digit(radix).ok_or(Unreadable)?;
    u8::try_from(worth).map_err(|_| Unreadable)
}

// A number with one digit more, where it stays below 2^64.
fn with_digit(n: u64, b: u8) -> Result<u64, Failure> {
    let digit = u64::from(digit(b, 10)?);
    let all = n.checked_mul(10).and_then(|n| n.checked_add(digit));
    all.ok_or(Unreadable)
}
