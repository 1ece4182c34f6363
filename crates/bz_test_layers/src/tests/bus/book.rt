//! A book of lines, some of which come with a page, as the marks of a journal do.
ghost use Rattle.std.specs.Prelude.{◌≡◌, ◌⊎◌, ◌∷◌, ◌++◌, [], ◌<◌, ◌^◌, true, false, vec_len, reverse};
ghost use Rattle.bz_bus.specs.Passes.{IsPassOf, number_of, passes_of};
ghost use Rattle.bz_test_layers.specs.Books.{told};

use super::counts::{close, join_back, open, split_off};
use crate::tests::bench::same;
use bz_bus::{Action, Bus, Chronicle, Pass};
use std::alloc::{AllocError, Global};
use std::process::Abort;
use std::sync::Wait;

#[derive(Clone, Copy, PartialEq, Debug)]
pub struct Line {
    pub by: u32,
    pub paged: bool,
}

/// A line with its page, if it has one.
#[derive(Clone, Copy)]
pub struct Told {
    pub by: u32,
    pub page: Option<u64>,
}

#[derive(Drop)]
pub struct Book {
    pub lines: Vec<Line, Global>,
    pub pages: Vec<u64, Global>,
    ghost few: { vec_len lines < 2 ^ 32 },
}

impl Book {
    pub fn open(alloc: Global, room: usize) -> Result<Book, AllocError> {
        Ok(Book {
            lines: Vec::with_capacity(alloc, room)?,
            pages: Vec::with_capacity(alloc, room)?,
        })
    }

    fn write_line(&mut self, by: u32)
        ensures line { (self.new.lines.items ≡ self.old.lines.items ++ record { by = by; paged = false } ∷ []) ⊎ (self.new.lines.items ≡ self.old.lines.items) }
        ensures pages { self.new.pages.items ≡ self.old.pages.items }
    {
        if self.lines.len() < 1 << 30 {
            let _ = self.lines.push(Line { by, paged: false });
        }
    }

    // A page comes with its line, or neither comes.
    fn write_page(&mut self, by: u32, page: u64)
        ensures { ((self.new.lines.items ≡ self.old.lines.items ++ record { by = by; paged = true } ∷ []) × (self.new.pages.items ≡ self.old.pages.items ++ page ∷ [])) ⊎ ((self.new.lines.items ≡ self.old.lines.items) × (self.new.pages.items ≡ self.old.pages.items)) }
    {
        if self.lines.len() < 1 << 30
            && self.pages.push(page).is_ok()
            && self.lines.push(Line { by, paged: true }).is_err()
        {
            self.pages.pop();
        }
    }
}

impl Chronicle for Book {
    type Entry = Told;

    type Fixed = u32;

    ghost fixed = { λ book. 0 };

    ghost entries = { λ book. told (λ line. line.paged) (λ line page. record { by = line.by; page = page }) (reverse book.lines.items) (reverse book.pages.items) };

    ghost owner = { λ entry. entry.by };

    fn length(&self) -> u32 {
        self.lines.len() as u32
    }
}

/// Writes a line, with its page if it has one, if there is room.
#[derive(Drop)]
pub struct Write {
    pub told: Told,
}

impl Action<Book> for Write {
    ghost asks = { λ write fixed found. Unit {0} };

    ghost does = { λ write fixed found left after. (after ≡ write) × ((left ≡ write.told ∷ found) ⊎ (left ≡ found)) };

    fn run(&mut self, book: &mut Book) {
        match self.told.page {
            None => book.write_line(self.told.by),
            Some(page) => book.write_page(self.told.by, page),
        }
    }
}

fn add<R: Wait>(rt: &R, bus: &Bus<Book>, pass: &mut Pass<Book>, page: Option<u64>)
    requires { IsPassOf bus.now pass.old }
    ensures { IsPassOf bus.now pass.new × (number_of pass.new ≡ number_of pass.old) }
{
    let by = pass.number();
    let mut write = Write {
        told: Told { by, page },
    };
    bus.turn(rt, pass, &mut write);
}

// Passes are split and joined, and add lines.
fn fill<R: Abort + Wait>(rt: &R, bus: &Bus<Book>, first: &mut Pass<Book>)
    requires pass { IsPassOf bus.now first.old × (number_of first.old ≡ 0) }
    requires room { passes_of bus.now ≡ 4 }
    ensures { IsPassOf bus.now first.new × (number_of first.new ≡ 0) }
{
    let mut three = split_off(rt, bus, first, 3);
    let mut one = split_off(rt, bus, first, 1);
    add(rt, bus, &mut one, Some(10));
    add(rt, bus, &mut three, None);
    join_back(rt, bus, first, one);
    add(rt, bus, &mut three, Some(30));
    let mut two = split_off(rt, bus, first, 2);
    add(rt, bus, &mut two, Some(20));
    join_back(rt, bus, first, three);
    join_back(rt, bus, first, two);
}

// The book that they leave.
fn written<R: Abort + Wait>(rt: &R, alloc: Global) -> Book {
    let book = Book::open(alloc, 4).expect(rt, "a book");
    let (bus, mut first) = open(alloc, book, 4).expect(rt, "a bus");
    fill(rt, &bus, &mut first);
    close(rt, bus, first)
}

// What they have written.
const LINES: [Line; 4] = [
    Line { by: 1, paged: true },
    Line {
        by: 3,
        paged: false,
    },
    Line { by: 3, paged: true },
    Line { by: 2, paged: true },
];

#[test]
fn a_page_comes_with_its_line_whoever_writes(rt: HostRuntime) {
    let book = written(&rt, rt.alloc());
    same(&rt, book.lines.as_slice(), &LINES);
    same(&rt, book.pages.as_slice(), &[10, 30, 20]);
}
