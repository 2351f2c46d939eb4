// Two images are compared.

use crate::printing::printed;
use cow_image::Failure;
use image_compare::compare as compare_images;
use image_options::{Form, Telling};
use image_reports::compared;
use opened_files::{Input, Trouble, held, size_of};
use std::io::Write;

/// Prints how two images compare, and tells whether they are the same.
pub fn compare<'a, W: Write>(
    rt: &'a HostRuntime,
    one: &'a str,
    other: &'a str,
    form: Form,
    telling: Telling,
    output: &mut W,
) -> Result<bool, Trouble<'a>> {
    let mut first = Input::open(rt, one, telling)?;
    let mut second = Input::open(rt, other, telling)?;
    let size = size_of(&mut first)?;
    let other_size = size_of(&mut second)?;
    let found = compare_images(rt.alloc(), &mut first, &mut second, size, other_size);
    first.hush();
    second.hush();
    let found = match found {
        Ok(found) => found,
        Err(failure) => return Err(trouble_of(&first, &second, failure)),
    };
    first.is_unchanged()?;
    second.is_unchanged()?;
    let text = compared(rt.alloc(), found, size, other_size, form);
    let text = held(other, text)?;
    printed(output, text.as_slice())?;
    Ok(found.first.is_none())
}

/// Why two images were not compared: by the one of which a read failed.
fn trouble_of<'a>(first: &Input<'a>, second: &Input<'a>, failure: Failure) -> Trouble<'a> {
    if first.failed().is_some() {
        return first.trouble(failure);
    }
    second.trouble(failure)
}
