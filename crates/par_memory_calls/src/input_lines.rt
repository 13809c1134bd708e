use par_inputs::error::BadInput;
use par_inputs::read_inputs;
use par_lines::Lines;
use par_worked::expect;
use std::alloc::Global;
use std::test::Fail;

// The place of a line, and the number that it gives next.
const NEXT: &[(Option<usize>, i32)] = &[
    (Some(0), 1),
    (Some(1), 5),
    (Some(0), -2),
    (Some(0), 0),
    (Some(2), 0),
    (None, 0),
    (Some(1), 0),
];

fn lines(alloc: Global) -> Result<Lines, BadInput> {
    let inputs = read_inputs(alloc, b"Shop.key: 1 -2\nShop.ask: 5\n")?;
    match Lines::of(alloc, inputs) {
        Ok(lines) => Ok(lines),
        Err(_) => Err(BadInput::Memory),
    }
}

fn check_next(lines: &mut Lines, rows: &[(Option<usize>, i32)]) -> Result<(), Fail> {
    for (line, number) in rows {
        expect(lines.next(*line) == *number, "its next number")?;
    }
    Ok(())
}

#[test]
fn numbers_are_taken_line_by_line(rt: HostRuntime) -> Result<(), Fail> {
    let Ok(mut lines) = lines(rt.alloc()) else {
        return Err(Fail::new("the lines are right"));
    };
    let checked = check_next(&mut lines, NEXT);
    drop(lines);
    checked
}
