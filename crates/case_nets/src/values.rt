//! Values of 0, 1 and X, and cubes of them.
use cubes::Cube;
use netlist::Tri;
use std::alloc::AllocError;

/// The digit of a value.
pub fn digit_of(value: Tri) -> u8 {
    match value {
        Tri::Zero => b'0',
        Tri::One => b'1',
        Tri::X => b'X',
    }
}

/// Adds values as digits.
fn push_values(to: &mut Vec<u8>, values: &[Tri]) -> Result<(), AllocError> {
    for value in values {
        to.push(digit_of(*value))?;
    }
    Ok(())
}

/// Adds a cube, and ends the line.
pub fn push_cube(to: &mut Vec<u8>, cube: &Cube) -> Result<(), AllocError> {
    push_values(to, cube.inputs())?;
    to.push(b'/')?;
    push_values(to, cube.cells())?;
    to.push(b'\n')?;
    Ok(())
}
