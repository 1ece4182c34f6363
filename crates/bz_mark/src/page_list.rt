//! The pages of a journal, one after the other in one list of pairs.
ghost use Rattle.std.specs.Prelude.{◌≡◌, ◌<◌, ◌≤◌, ◌++◌, ◌∷◌, [], IfOk, length, slice_get, slice_range, Some};

use bz_key::{Key, PAGE_PAIRS, Payload};
use bz_oom::Memory;
use std::alloc::Global;
use std::marker::Model;

/// Pages, seen as the list of their pairs, with room for so many. It takes no memory after its opening.
#[derive(Drop)]
pub(crate) struct PageList {
    pairs: Vec<(Key, Payload)>,
    // where the first page begins, and where each one ends
    bounds: Vec<usize>,
    most: u32,
}

impl Model for PageList {
    ghost use Rattle.bz_mark.specs.PageLists.{PageLists, pages_in, AreBounds};

    ghost Value = { PageLists };

    ghost view = { λ l. record { pages = pages_in l.bounds.items l.pairs.items; most = l.most } };

    ghost invariant = { AreBounds };
}

impl PageList {
    /// No pages, and room for so many.
    pub(crate) fn open(alloc: Global, most: u32) -> Result<PageList, Memory>
        ensures pages { IfOk result (λ l. l.pages ≡ []) }
        ensures most { IfOk result (λ l. l.most ≡ most) }
    {
        let mut bounds = Vec::with_capacity(alloc, most as usize + 1)?;
        bounds.push_reserved(0);
        let pairs: Vec<(Key, Payload)> = Vec::with_capacity(alloc, most as usize * PAGE_PAIRS)?;
        Ok(PageList {
            pairs,
            bounds,
            most,
        })
    }

    /// How many there are.
    pub(crate) fn count(&self) -> u32
        ensures { result ≡ length self.now.pages }
    {
        (self.bounds.len() - 1) as u32
    }

    /// Adds a page, and answers its number.
    pub(crate) fn push(&mut self, page: &[(Key, Payload)]) -> u32
        requires room { length self.old.pages < self.old.most }
        requires few { length page.now ≤ PAGE_PAIRS }
        ensures pages { self.new.pages ≡ self.old.pages ++ page.now ∷ [] }
        ensures most { self.new.most ≡ self.old.most }
        ensures number { result ≡ length self.old.pages }
    {
        let number = self.count();
        match self.pairs.extend_from_slice(page) {
            Ok(()) => {}
            Err(_) => unreachable!(),
        }
        self.bounds.push_reserved(self.pairs.len());
        number
    }

    /// The pairs of a page.
    pub(crate) fn page(&self, p: u32) -> &[(Key, Payload)]
        requires { p < length self.now.pages }
        ensures pairs { slice_get self.now.pages p ≡ Some result.now }
        ensures few { length result.now ≤ PAGE_PAIRS }
    {
        let start = self.bounds[p as usize];
        let end = self.bounds[p as usize + 1];
        part(&self.pairs, start, end)
    }
}

/// The pairs between two places.
fn part(pairs: &[(Key, Payload)], start: usize, end: usize) -> &[(Key, Payload)]
    requires rises { start ≤ end }
    requires within { end ≤ length pairs.now }
    ensures { result.now ≡ slice_range pairs.now start end }
{
    &pairs[start..end]
}
