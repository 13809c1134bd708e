//! What the labelled code of small bodies puts out where it runs.

use par_code::{Labelled, code_of};
use par_code_runner::run;
use par_erase::{Plain, erase};
use par_typed_sources::with_main;
use par_worked::expect;
use std::alloc::Global;
use std::rt::HostRuntime;
use std::test::Fail;

const BEFORE: &[u8] = b"lock Kept;
lock Paid;
class First extends Exception { }
class Second extends Exception { }
class Third extends Exception { }
class Shop {
  input int key();
  output void show(int v);
  static int got;
  static void main() {
";

const SHOP: u16 = 5;

const MAIN: u16 = 0;

// A body, and what it puts out where it reads these keys.
struct Row {
    body: &'static [u8],
    keys: &'static [i32],
    shown: &'static [i32],
}

const DECIDED: &[u8] = b"boolean a = key() == 1 && key() == 2;
    boolean b = key() == 3 || key() == 4;
    if (a) { show(1); }
    if (b) { show(2); }
    show(key());";

const LOOPED: &[u8] = b"while (true) {
      int k = key();
      if (k == 0) { break; }
      if (k < 0) { continue; }
      show(k * 2);
    }
    show(-1);";

const INNER_LOOP: &[u8] = b"int i = 0;
    while (i < 3) {
      int j = 0;
      while (true) { if (j == i) { break; } show(i * 10 + j); j = j + 1; }
      i = i + 1;
    }";

const CAUGHT: &[u8] = b"while (got < 4) {
      got = got + 1;
      try {
        try {
          try {
            if (got == 1) { throw new Third(); }
            if (got == 2) { throw new Second(); }
            if (got == 3) { throw new First(); }
            show(10);
          } catch (First a) { show(1); throw new Second(); }
        } catch (Second b) { show(2); continue; }
      } catch (Third c) { show(3); }
      show(got);
    }";

const CAUGHT_TWICE: &[u8] = b"try {
      try { throw new First(); } catch (First a) { show(1); throw new First(); }
    } catch (First b) { show(2); }
    show(3);";

const ASKED: &[u8] = b"open Kept;
    when (Paid) { show(1); } else { show(2); }
    when (Kept) { show(3); }
    close Kept;
    open Paid;
    when (Kept) { show(4); }
    when (Paid) { show(5); }";

const CALCULATED: &[u8] = b"got = 2; show(got + key() * (3 - key()));";

const ROWS: &[Row] = &[
    // The second part of `&&` reads no key, and that of `||` neither.
    Row {
        body: DECIDED,
        keys: &[5, 3, 9],
        shown: &[2, 9],
    },
    Row {
        body: DECIDED,
        keys: &[1, 2, 4, 4, 7],
        shown: &[1, 2, 7],
    },
    Row {
        body: LOOPED,
        keys: &[3, -4, 5, 0, 8],
        shown: &[6, 10, -1],
    },
    Row {
        body: INNER_LOOP,
        keys: &[],
        shown: &[10, 20, 21],
    },
    // One round goes to the outermost catch, one to that in the middle, one from the innermost
    // catch to that in the middle, and the last one to none.
    Row {
        body: CAUGHT,
        keys: &[],
        shown: &[3, 1, 2, 1, 2, 10, 4],
    },
    Row {
        body: CAUGHT_TWICE,
        keys: &[],
        shown: &[1, 2, 3],
    },
    Row {
        body: ASKED,
        keys: &[],
        shown: &[2, 3, 5],
    },
    // 2 + 4 * (3 - 1)
    Row {
        body: CALCULATED,
        keys: &[4, 1],
        shown: &[10],
    },
];

fn program(alloc: Global, body: &[u8]) -> Result<Plain, Fail> {
    let typed = with_main(alloc, BEFORE, body)?;
    let plain = erase(alloc, &typed);
    drop(typed);
    Ok(plain?)
}

fn code(alloc: Global, body: &[u8]) -> Result<Labelled, Fail> {
    let plain = program(alloc, body)?;
    let code = code_of(alloc, &plain, SHOP, MAIN);
    drop(plain);
    Ok(code?)
}

fn puts_out(alloc: Global, code: &Labelled, row: &Row) -> Result<bool, Fail> {
    let end = run(alloc, code, row.keys)?;
    let is_shown = end.shown.as_slice() == row.shown;
    drop(end);
    Ok(is_shown)
}

fn row_holds(alloc: Global, row: &Row) -> Result<bool, Fail> {
    let code = code(alloc, row.body)?;
    let holds = puts_out(alloc, &code, row);
    drop(code);
    holds
}

fn check_rows(alloc: Global, rows: &[Row]) -> Result<(), Fail> {
    for row in rows {
        expect(row_holds(alloc, row)?, "what is put out")?;
    }
    Ok(())
}

#[test]
fn code_puts_out_what_its_body_says(rt: HostRuntime) -> Result<(), Fail> {
    check_rows(rt.alloc(), ROWS)
}
