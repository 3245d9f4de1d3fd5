// A place in the bytes of a file, and the records that are read there.
ghost use Rattle.std.specs.Prelude.{◌≤◌, length};

use crate::Entries;
use rules::{Answer, END_MARK, END_SIZE, ENTRIES_MARK, NUMBER_SIZE, Refusal};
use words::word_at;

// How many bytes a mark has.
const MARK_SIZE: usize = 2;

// The bytes of a file, and the offset where the next record begins.
#[derive(Clone, Copy, Debug, PartialEq, Eq)]
pub struct Cursor<'a> {
    pub file: &'a [u8],
    pub at: usize,
    pub ghost within: { at ≤ length file.now },
}

impl<'a> Cursor<'a> {
    ghost use Rattle.std.specs.Prelude.{◌≡◌, ◌+◌, ◌*◌, take, drop};
    ghost use Rattle.rules.specs.Refusals.{answer};
    ghost use Rattle.rules.specs.Records.{words_in, several, read_end};
    ghost use Rattle.read_records.specs.Cursors.{cursor, mark_at, plain_shape};
    ghost use Rattle.read_records.specs.Reading.{NumberRead, EntriesRead};

    // The bytes from another offset on.
    pub fn moved_to(&self, at: usize) -> Cursor<'a>
        requires { at ≤ length self.now.file.now }
        ensures same_file { result.file.now ≡ self.now.file.now }
        ensures place { result.at ≡ at }
    {
        Cursor {
            file: self.file,
            at,
        }
    }

    // How many bytes are left.
    fn left(&self) -> usize
        ensures { self.now.at + result ≡ length self.now.file.now }
    {
        self.file.len() - self.at
    }

    // The mark of a record: 1 if fewer than two bytes are left, then 2.
    fn mark(&self, mark: u16) -> Answer<()>
        ensures { result ≡ answer (mark_at mark self.now.file.now self.now.at) }
    {
        if self.left() < MARK_SIZE {
            return Err(Refusal::FileEnds.at(self.at));
        }
        if word_at(self.file, self.at) != mark {
            return Err(Refusal::WrongMark.at(self.at));
        }
        Ok(())
    }

    // A record of one number.
    pub fn number(&self, mark: u16) -> Answer<u16>
        ensures { NumberRead self.now.file.now self.now.at mark result }
    {
        self.mark(mark)?;
        if self.left() < NUMBER_SIZE {
            return Err(Refusal::FileEnds.at(self.at));
        }
        Ok(word_at(self.file, self.at + MARK_SIZE))
    }

    // A point's record: a count, and that many entries, as 16-bit numbers.
    pub fn entries(&self) -> Answer<Entries>
        ensures { EntriesRead self.now.file.now self.now.at result }
    {
        self.mark(ENTRIES_MARK)?;
        if self.left() < NUMBER_SIZE {
            return Err(Refusal::FileEnds.at(self.at));
        }
        let from = self.at + NUMBER_SIZE;
        let count = usize::from(word_at(self.file, self.at + MARK_SIZE));
        let next = from + 2 * count;
        if self.file.len() < next {
            return Err(Refusal::FileEnds.at(self.at));
        }
        Ok(Entries { count, from, next })
    }

    // Copies the `count` numbers from here on into e.
    pub fn copy_numbers(&self, count: usize, e: &mut [u16])
        requires { (self.now.at + 2 * count ≤ length self.now.file.now) × (count ≤ length e.old) }
        ensures { take count e.new ≡ words_in count (drop self.now.at self.now.file.now) }
    {
        for i in 0..count {
            e[i] = word_at(self.file, self.at + 2 * i);
        }
    }

    // 1 and 2 on `count` records of a mark and `size` numbers, record by record.
    pub fn records(&self, mark: u16, size: usize, count: usize) -> Answer<()>
        requires { size ≤ 5 }
        ensures { result ≡ answer (several count (plain_shape mark size) (cursor self.now.file.now self.now.at)) }
    {
        let bytes = MARK_SIZE + 2 * size;
        for i in 0..count {
            let record = self.moved_to(self.at + bytes * i);
            record.mark(mark)?;
            if record.left() < bytes {
                return Err(Refusal::FileEnds.at(record.at));
            }
        }
        Ok(())
    }

    // The end record, then 10 at the first extra byte.
    pub fn end(&self) -> Answer<()>
        ensures { result ≡ answer (read_end (cursor self.now.file.now self.now.at)) }
    {
        self.mark(END_MARK)?;
        let behind = self.at + END_SIZE;
        if behind < self.file.len() {
            return Err(Refusal::ExtraBytes.at(behind));
        }
        Ok(())
    }
}
