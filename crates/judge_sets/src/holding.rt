//! A row that is held over others again and again.
use analysis::Task;
use demand::Kind;
use runs::Register;
use table::HoldRefusal;

// Tries the last row of a set out so many times, over a table at these places that keeps the others.
pub(crate) fn hold_last<K: Kind + Copy + Drop>(
    set: &[Option<Task<K>>],
    times: u32,
    places: &mut [Option<Task<K>>],
) -> Result<(), HoldRefusal> {
    let Some((Some(last), others)) = set.split_last() else {
        return Ok(());
    };
    let mut register = Register::new(1, places);
    for task in others.iter().flatten() {
        register.take_in(task.row, task.kind)?;
    }
    for _ in 0..times {
        register.try_out(last.row, last.kind)?;
    }
    Ok(())
}
