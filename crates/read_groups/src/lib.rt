// The line records of a drawing file: the points that a line joins, its entry as a call takes it, and a point's group of lines. The functions ask that the records lie in the file; the reader above has tested it.
#![tactic(auto)]

ghost use Rattle.std.specs.Prelude.{◌≡◌, ◌+◌, ◌*◌, ◌≤◌, length};
ghost use Rattle.rules.specs.Records.{line_size};
ghost use Rattle.rules.specs.DrawingFile.{entry_in};
ghost use Rattle.read_groups.specs.Lines.{line_at, joins};
ghost use Rattle.read_groups.specs.Groups.{number_for, Taken};

use read_records::Cursor;
use rules::{Entry, Style};
use styles::line_size;
use words::{POINT_LIMIT, word_at};

// Where a line record has its later point and its earlier point; its last number is its kind.
pub const LATER_AT: usize = 2;

const EARLIER_AT: usize = 4;

const KIND_SIZE: usize = 2;

// Whether the line record at the cursor joins these two points.
pub fn line_joins(line: &Cursor, style: Style, later: u16, earlier: u16) -> bool
    requires { line.now.at + line_size style ≤ length line.now.file.now }
    ensures { result ≡ joins (line_at style line.now.file.now line.now.at) later earlier }
{
    word_at(line.file, line.at + LATER_AT) == later
        && word_at(line.file, line.at + EARLIER_AT) == earlier
}

// The entry of the line record at the cursor, as a call takes it. An earlier point that has no such form isn't placed: 0, which isn't placed either. An Option would be no plainer: the call is to refuse it as it refuses 0, so that for None 0 would be put into it all the same.
pub fn entry_at(line: &Cursor, style: Style) -> u16
    requires { line.now.at + line_size style ≤ length line.now.file.now }
    ensures { result ≡ number_for (entry_in style (line_at style line.now.file.now line.now.at)) }
{
    let point = word_at(line.file, line.at + EARLIER_AT);
    if POINT_LIMIT <= point {
        return 0;
    }
    let last = line_size(style) - KIND_SIZE;
    let kind = words::kind_from(word_at(line.file, line.at + last));
    words::join(Entry { point, kind })
}

// Takes the group of point p from the `left` lines at the cursor, as entries into e; gives its number of lines.
pub fn take_group(lines: &Cursor, style: Style, left: usize, p: u16, e: &mut [u16]) -> usize
    requires { (lines.now.at + line_size style * left ≤ length lines.now.file.now) × (left ≤ length e.old) }
    ensures { Taken style lines.now.file.now lines.now.at left p e.new result }
{
    let size = line_size(style);
    for i in 0..left {
        let line = lines.moved_to(lines.at + size * i);
        if word_at(line.file, line.at + LATER_AT) != p {
            return i;
        }
        e[i] = entry_at(&line, style);
    }
    left
}
