//! How a site is set up, as its folder has it.

ghost use Rattle.std.specs.Prelude.{◌≡◌, IfOk, IfSome, string_bytes};
ghost use Rattle.rubis_keep.specs.SetupLine.{setup_line};
ghost use Rattle.rubis_keep.specs.Setups.{IsPossible, renewed};

use crate::files::{begin, give_name};
use rubis_script::Config;
use std::alloc::{AllocError, Global};
use std::fs::{File, Files};
use std::io;
use std::io::{ErrorKind, Read, Write};

/// The version of the text of answers that this program writes.
pub const ANSWERS: u32 = 2;

/// The version before it, in which no record was under a key: one that begins with the word `key` was malformed.
pub const KEYLESS: u32 = 1;

/// How a site is set up, as its folder has it, and in which version of their text its answers are.
#[derive(Clone, Copy)]
pub struct Setup {
    pub site: u8,
    pub sites: u8,
    pub keep: u32,
    pub answers: u32,
}

impl Setup {
    /// The same in this version.
    pub(crate) fn renewed(self) -> Setup
        ensures { result ≡ renewed self }
    {
        let answers = ANSWERS;
        Setup { answers, ..self }
    }

    // The line that says so.
    fn line(self, alloc: Global) -> Result<String, AllocError>
        ensures { IfOk result (λ line. string_bytes line ≡ setup_line self) }
    {
        let Setup {
            site,
            sites,
            keep,
            answers,
        } = self;
        let mut line = format!(in alloc; "setup,{site},{sites}")?;
        line.push_str(format!(in alloc; ",{keep},{answers}\n")?.as_str())?;
        Ok(line)
    }

    // The numbers of a line: `None` where no site can be set up so.
    fn numbers(line: &str) -> Option<Setup>
        ensures { IfSome result IsPossible }
    {
        let mut fields = line.trim_end().split(',').skip(1);
        let setup = Setup {
            site: fields.next()?.parse().ok()?,
            sites: fields.next()?.parse().ok()?,
            keep: fields.next()?.parse().ok()?,
            answers: fields.next()?.parse().ok()?,
        };
        let _alone = Config::new(setup.site, setup.sites, 1, 1, 1, setup.keep)?;
        Some(setup)
    }

    // What a line says: `None` where it isn't the line of a setup, or no site can be set up so.
    fn read(alloc: Global, line: &str) -> Result<Option<Setup>, AllocError>
        ensures { IfOk result (λ found. IfSome found (λ setup. IsPossible setup × (line.now ≡ setup_line setup))) }
    {
        let Some(setup) = Setup::numbers(line) else {
            return Ok(None);
        };
        if setup.line(alloc)?.as_str() == line {
            return Ok(Some(setup));
        }
        Ok(None)
    }
}

/// How the site in a folder is set up. `None` if the folder doesn't say.
///
/// # Errors
///
/// Those of the file system, and `InvalidData` if what it says isn't read, or no site can be set up so.
pub(crate) fn read_setup<R: Files<File = File> + AllocGlobal>(
    rt: &R,
    folder: &str,
) -> io::Result<Option<Setup>> {
    let path = format!(in rt.alloc(); "{folder}/setup")?;
    let mut text = String::new(rt.alloc());
    match File::open(rt, path.as_str()) {
        Ok(mut file) => file.read_to_string(&mut text)?,
        Err(e) if e.kind() == ErrorKind::NotFound => return Ok(None),
        Err(e) => return Err(e),
    };
    match Setup::read(rt.alloc(), &text)? {
        Some(setup) => Ok(Some(setup)),
        None => Err(io::Error::from(ErrorKind::InvalidData)),
    }
}

/// Writes down how the site in a folder is set up. A power failure may take that back until the names are flushed.
pub(crate) fn name_setup<R: Files<File = File> + AllocGlobal>(
    rt: &R,
    folder: &str,
    setup: Setup,
) -> io::Result<()> {
    let line = setup.line(rt.alloc())?;
    let mut file = begin(rt, folder, "setup")?;
    file.write_all(line.as_bytes())?;
    give_name(rt, folder, "setup", &file)
}
