//! Command lines, and what they ask for.
use super::bench::{same, same_at};
use bz_cli::{WordsError, read_words};
use std::alloc::Global;
use std::process::Abort;
use std::test::Fail;

// What the words of a line ask for, a command and its limit on marks; single spaces part them.
fn asked(alloc: Global, line: &str) -> Result<String, Fail> {
    let mut words: Vec<&str> = Vec::new(alloc);
    for word in line.split(' ') {
        words.push(word)?;
    }
    let told = match read_words(alloc, &words) {
        Ok(found) => format!(in alloc; "{:?} {}", found.command, found.marks)?,
        Err(error) => format!(in alloc; "{error:?}")?,
    };
    Ok(told)
}

// Each row is a line, and what it asks for.
fn expect_rows(rt: &impl Abort, alloc: Global, rows: &str) -> Result<(), Fail> {
    for row in rows.lines() {
        let Some((line, want)) = row.split_once(" => ") else {
            return Err(Fail::from("a row without its answer"));
        };
        let got = asked(alloc, line)?;
        same_at(rt, got.as_str(), want, line);
    }
    Ok(())
}

// None of these lines is a command; bars part them.
fn expect_usage(rt: &impl Abort, alloc: Global, lines: &str) -> Result<(), Fail> {
    for line in lines.split('|') {
        let got = asked(alloc, line)?;
        same_at(rt, got.as_str(), "Usage", line);
    }
    Ok(())
}

#[test]
fn run_has_a_limit_on_marks_or_the_usual_one(rt: HostRuntime) -> Result<(), Fail> {
    let rows = "\
run => Run 4194304
run --marks 1024 => Run 1024
run --marks=1024 => Run 1024
run --marks 1025 => Run 1025
run --marks=20480 => Run 20480
run --marks 3000000 => Run 3000000
run --marks=4194304 => Run 4194304
run --marks 5000000 => Run 5000000
run --marks=60000 => Run 60000
run --marks 7000 => Run 7000
run --marks=8000 => Run 8000
run --marks 9999999 => Run 9999999
run --marks 33554432 => Run 33554432
run --marks=33554432 => Run 33554432";
    expect_rows(&rt, rt.alloc(), rows)
}

#[test]
fn dump_and_load_have_the_same(rt: HostRuntime) -> Result<(), Fail> {
    let rows = "\
dump => Dump 4194304
dump --marks 1024 => Dump 1024
dump --marks=33554432 => Dump 33554432
load => Load 4194304
load --marks 5000000 => Load 5000000
load --marks=2345 => Load 2345";
    expect_rows(&rt, rt.alloc(), rows)?;
    let lines = "dump 1|dump --|dump dump|dump --marks 1023|load load|load --marks|load image.bz|\
        --marks 1024 load";
    expect_usage(&rt, rt.alloc(), lines)
}

#[test]
fn work_has_three_numbers_and_the_limit_anywhere_among_them(rt: HostRuntime) -> Result<(), Fail> {
    let rows = "\
work 0 1 1 => Work { seed: 0, calls: 1, workers: 1 } 33554432
work 7 20000 64 => Work { seed: 7, calls: 20000, workers: 64 } 33554432
work 18446744073709551615 20 2 => Work { seed: 18446744073709551615, calls: 20, workers: 2 } 33554432
work --marks 1024 1 20 2 => Work { seed: 1, calls: 20, workers: 2 } 1024
work 1 --marks 1025 20 2 => Work { seed: 1, calls: 20, workers: 2 } 1025
work 1 20 --marks 33554432 2 => Work { seed: 1, calls: 20, workers: 2 } 33554432
work 1 20 2 --marks 9999 => Work { seed: 1, calls: 20, workers: 2 } 9999
work --marks=1024 1 20 2 => Work { seed: 1, calls: 20, workers: 2 } 1024
work 1 --marks=2345 20 2 => Work { seed: 1, calls: 20, workers: 2 } 2345
work 1 20 --marks=60000 2 => Work { seed: 1, calls: 20, workers: 2 } 60000
work 1 20 2 --marks=7890 => Work { seed: 1, calls: 20, workers: 2 } 7890";
    expect_rows(&rt, rt.alloc(), rows)
}

#[test]
fn other_words_behind_work_are_no_command(rt: HostRuntime) -> Result<(), Fail> {
    let lines = "work|work 1|work 1 20|work 1 20 2 3|work 18446744073709551616 20 2|work 1 0 2|\
        work 1 20001 2|work 1 20 0|work 1 20 65|work 01 20 2|work 1 20 2 |work 1 +20 2|\
        work -1 20 2|work a 20 2|work -- 1 20 2|work 1 20 2 --|work 1 20 --marks 2|\
        work 1 20 2 --marks 1023|work 1 20 2 --marks|work --marks=1024 1 20 2 --marks 1024|\
        --marks 1024 work 1 20 2|work --seed 1 20 2";
    expect_usage(&rt, rt.alloc(), lines)
}

#[test]
fn other_words_are_no_command(rt: HostRuntime) -> Result<(), Fail> {
    let lines = "| run|run |Run|ru|running|help|help run|version|worker 1 2 3|dumps|loa|now|--help|\
        -h|--version|-V|--|-- run|-";
    expect_usage(&rt, rt.alloc(), lines)?;
    same(
        &rt,
        read_words(rt.alloc(), &[]).err(),
        Some(WordsError::Usage),
    );
    Ok(())
}

#[test]
fn words_behind_run_are_the_limit_alone(rt: HostRuntime) -> Result<(), Fail> {
    let lines = "run --help|run -h|run help|run --version|run now|run run|run 1024|run --|run -|\
        run -- --marks 1024|run --marks 1024 --|run --marks -- 1024|run --marks=1024 -- |\
        run --marks 1024 now|run now --marks 1024|run --marks=1024 1024|run -m 1024|\
        run -marks 1024|run --mark 1024|run --mark=1024|run --Marks 1024|run --marks1024|\
        run --marks|run --marks=|run --marks |run --marks= 1024|run --marks = 1024";
    expect_usage(&rt, rt.alloc(), lines)
}

#[test]
fn the_limit_stands_once_behind_the_name_and_in_its_range(rt: HostRuntime) -> Result<(), Fail> {
    let lines = "--marks 1024 run|--marks=1024 run|--marks 1024|run --marks 1024 --marks 1024|\
        run --marks=1024 --marks=1024|run --marks 1024 --marks=2048|run --marks --marks=1024|\
        run --marks --marks|run --marks 1023|run --marks=1023|run --marks 0|\
        run --marks=33554433|run --marks 18446744073709551616|\
        run --marks 99999999999999999999999|run --marks 01024|run --marks=01024|\
        run --marks +1024|run --marks -1024|run --marks=-1024|run --marks 1e5|\
        run --marks 2_048|run --marks 0x800|run --marks=2048.0";
    expect_usage(&rt, rt.alloc(), lines)
}
