//! Fresh memory word by word, and a journal that takes marks up to its room.

use crate::{QCall, QJournal, QMark, QReply, Ring, fresh};
use bz_mark::Mark;
use std::process::Abort;

const MARKS: [QMark; 4] = [
    QMark::Begin {
        w: 1,
        n: 1,
        call: QCall::Put(3),
    },
    QMark::Memory(Mark::Evict { a: 11 }),
    QMark::Effect { w: 1, n: 1 },
    QMark::End {
        w: 1,
        n: 1,
        reply: QReply::Put,
        at: 2,
    },
];

#[test]
fn fresh_memory_has_its_numbers(rt: HostRuntime) {
    let ring = Ring {
        capacity: 9,
        swaps: 2,
    };
    let words = fresh(rt.alloc(), &ring).expect(&rt, "a memory");
    assert!(&rt; words.len() == 64 && ring.words() == 64);
    for (a, word) in words.iter().enumerate() {
        let expected = match a {
            0 => 3,
            3 => 9,
            4 => 2,
            _ => 0,
        };
        assert!(&rt; *word == expected);
    }
    assert!(&rt; ring.cell_at(8) == 56 && ring.cell_at(9) == 48);
}

#[test]
fn a_journal_takes_marks_up_to_its_room(rt: HostRuntime) {
    let mut journal = QJournal::open(rt.alloc(), &[7; 8], 4).expect(&rt, "a journal");
    for mark in MARKS {
        assert!(&rt; journal.room() > 0);
        journal.push(mark);
    }
    assert!(&rt; journal.room() == 0 && journal.length() == 4);
    assert!(&rt;
        matches!(
            journal.mark(0),
            QMark::Begin {
                w: 1,
                n: 1,
                call: QCall::Put(3)
            }
        )
    );
    assert!(&rt; matches!(journal.mark(1), QMark::Memory(Mark::Evict { a: 11 })));
    assert!(&rt; matches!(journal.mark(2), QMark::Effect { w: 1, n: 1 }));
    assert!(&rt;
        matches!(
            journal.mark(3),
            QMark::End {
                w: 1,
                n: 1,
                reply: QReply::Put,
                at: 2
            }
        )
    );
    assert!(&rt; journal.start().len() == 8);
}
