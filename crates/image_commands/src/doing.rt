// What is asked for is done.

use crate::commands::{Part, check, raw_map, show};
use crate::comparing::compare;
use crate::differing::diff;
use crate::ended::Ended;
use crate::living::serve_in_use;
use crate::merging::{Words, merge};
use crate::over::{picture, ranged_map, table};
use crate::printing::printed;
use crate::repairing::repair_store;
use crate::rolling::export;
use crate::salvaging::{Salvage, salvage_array};
use crate::seaming::{hear, spell};
use crate::serving::serve;
use crate::storing;
use image_options::{Asked, HELP, Telling, VERSION, topic};
use opened_files::Trouble;
use std::io::{BufRead, Write};

/// Does what is asked for, from and to these streams.
pub fn done<'a, R: BufRead, W: Write, E: Write>(
    rt: &'a HostRuntime,
    asked: Asked<'a>,
    telling: Telling,
    input: &mut R,
    output: &mut W,
    errors: &mut E,
) -> Result<Ended<'a>, Trouble<'a>> {
    let good = match asked {
        Asked::Help => said(HELP, output)?,
        Asked::HelpOf { command } => said(topic(command), output)?,
        Asked::Version => said(VERSION, output)?,
        Asked::Show { cow, form } => show(rt, cow, Part::Numbers(form), telling, output)?,
        Asked::Human { cow } => show(rt, cow, Part::Units, telling, output)?,
        Asked::Map { cow, form } => show(rt, cow, Part::Runs(form), telling, output)?,
        Asked::Ranges { origin, cow, form } => ranged_map(rt, origin, cow, form, telling, output)?,
        Asked::Picture { origin, cow, svg } => picture(rt, origin, cow, svg, telling, output)?,
        Asked::RawMap { cow, form } => raw_map(rt, cow, form, telling, output)?,
        Asked::Check { origin, cow, form } => check(rt, origin, cow, form, telling, output)?,
        Asked::Differ { origin, cow, form } => diff(rt, origin, cow, form, telling, output)?,
        Asked::Compare { one, other, form } => compare(rt, one, other, form, telling, output)?,
        Asked::Table { origin, cow } => table(rt, origin, cow, telling, output)?,
        Asked::Export {
            origin,
            cow,
            out,
            form,
        } => export(rt, origin, cow, out, form, telling, output, errors)?,
        Asked::Salvage {
            origin,
            cow,
            out,
            chunk,
            behind,
            form,
        } => {
            let asked = Salvage {
                out,
                chunk,
                behind,
                form,
                telling,
            };
            salvage_array(rt, origin, cow, asked, output, errors)?
        }
        Asked::Merge {
            origin,
            cow,
            dry,
            form,
        } => {
            let words = Words {
                origin,
                cow,
                dry,
                form,
                telling,
            };
            return merge(rt, words, output);
        }
        Asked::Repair {
            cow,
            new,
            chunk,
            behind,
            form,
        } => {
            let asked = Salvage {
                out: new,
                chunk,
                behind,
                form,
                telling,
            };
            repair_store(rt, cow, asked, output, errors)?
        }
        Asked::Store {
            origin,
            array,
            new,
            chunk,
        } => {
            let words = storing::Words {
                origin,
                array,
                new,
                chunk,
                telling,
            };
            storing::store(rt, words, output)?
        }
        Asked::Serve {
            origin,
            cow,
            live: false,
        } => serve(rt, origin, cow, input, output, errors)?,
        Asked::Serve {
            origin,
            cow,
            live: true,
        } => serve_in_use(rt, origin, cow, input, output)?,
        Asked::Words { disk, image } => spell(rt, disk, image, output)?,
        Asked::Image { out } => hear(rt, out, input, output)?,
    };
    Ok(Ended::of(good))
}

/// Says what the program has to say of itself.
fn said<W: Write>(text: &[u8], output: &mut W) -> Result<bool, Trouble<'static>> {
    printed(output, text)?;
    Ok(true)
}
