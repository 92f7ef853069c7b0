//! The table of the commands: what each is called, what it is about, examples of its records, and which arguments it takes.

use crate::commands::ArgumentKind::*;
use crate::commands::{Argument, CommandRow};
use rubis_schema::{BATCH_MAX, KEEP_MAX, SHARDS_MAX, SITES_MAX, WORKERS_MAX};

const SITE_RECORDS: &str =
    "Records, for example:\n  user,ann\n  item,0.1,lamp,7,1,100,0\n  list,users\nAll of them: man rubis, and docs/MANUAL.md";

const LOG_RECORDS: &str =
    "Records, for example:\n  site,0\n  msg,1,0,1,1,0,user,ann\n  row,user,0.1,ann,0,0,0,0\nAll of them: man rubis, and docs/MANUAL.md";

#[rattlefmt::skip]
const SITES: Argument = Argument { name: "sites", kind: Number(1, SITES_MAX as u64, "1"), help: "How many sites there are, 1 to 16" };

#[rattlefmt::skip]
const SHARDS: Argument = Argument { name: "shards", kind: Number(1, SHARDS_MAX as u64, "4"), help: "How many shards several workers share, 1 to 64; changes no answer" };

#[rattlefmt::skip]
const WORKERS: Argument = Argument { name: "workers", kind: Number(1, WORKERS_MAX as u64, "2"), help: "How many threads may apply a batch, 1 to 16; changes no answer" };

#[rattlefmt::skip]
const BATCH: Argument = Argument { name: "batch", kind: Number(1, BATCH_MAX as u64, "64"), help: "How many released messages may be pending, 1 to 65536; several workers take in up to 4096; changes no answer" };

#[rattlefmt::skip]
const KEEP: Argument = Argument { name: "keep", kind: Number(1, KEEP_MAX as u64, "1000000"), help: "How many messages a site keeps, released and held, 1 to 1000000" };

/// The commands, in the order of the program's help.
#[rattlefmt::skip]
pub(crate) static COMMANDS: [CommandRow; 7] = [
    CommandRow {
        name: "site", examples: SITE_RECORDS,
        about: "Runs one site: reads records on standard input, writes answers on standard output",
        arguments: &[
            Argument { name: "site", kind: Number(0, SITES_MAX as u64 - 1, "0"), help: "Which site this is, 0 to 15 and below --sites" },
            SITES, SHARDS, WORKERS, BATCH, KEEP,
        ],
    },
    CommandRow {
        name: "world", examples: "Records, for example:\n  at,0,user,ann\n  deliver,1,1\n  audit\nAll of them: man rubis, and docs/MANUAL.md",
        about: "Runs several sites and their packets: reads records, writes answers",
        arguments: &[SITES, SHARDS, WORKERS, BATCH, KEEP],
    },
    CommandRow {
        name: "audit", examples: LOG_RECORDS,
        about: "Audits the logs of several sites: writes the first fault, or Agree",
        arguments: &[SITES, Argument { name: "status", kind: Flag, help: "Ends with status 1 unless the logs agree" }],
    },
    CommandRow {
        name: "lack", examples: "Records, for example:\n  site,0\n  msg,1,0,1,1,0,user,ann\n  site,1\nAll of them: man rubis, and docs/MANUAL.md",
        about: "Writes the messages that each of several logs lacks of the others, or what their audit finds",
        arguments: &[
            SITES,
            Argument { name: "waiting", kind: Flag, help: "Reads the input of one site in place of logs, and writes what each message that waits at its end waits for" },
            Argument { name: "site", kind: OptionalNumber(0, SITES_MAX as u64 - 1), help: "Which site this is, 0 to 15 and below --sites, with --waiting; by default 0" },
            Argument { name: "keep", kind: OptionalNumber(1, KEEP_MAX as u64), help: "How many messages the site keeps, released and held, 1 to 1000000, with --waiting; by default 1000000" },
        ],
    },
    CommandRow {
        name: "check", examples: SITE_RECORDS,
        about: "Says of each record that is outside the grammar what is wrong with it",
        arguments: &[
            Argument { name: "reading", kind: DefaultText("COMMAND", "site"), help: "The command that reads the records: site, world or audit" },
            SITES,
        ],
    },
    CommandRow {
        name: "widen", examples: LOG_RECORDS,
        about: "Rewrites logs for more sites, so that they can be audited with those of larger shops",
        arguments: &[SITES, Argument { name: "to", kind: Number(1, SITES_MAX as u64, "16"), help: "How many sites the messages are to count, 1 to 16 and not below --sites" }],
    },
    CommandRow {
        name: "keep", examples: SITE_RECORDS,
        about: "Runs a site that stays up: keeps each record before it is answered, and goes on after a crash",
        arguments: &[
            Argument { name: "folder", kind: RequiredText("FOLDER"), help: "Where the site's files are: setup, kept, out and lock" },
            Argument { name: "site", kind: OptionalNumber(0, SITES_MAX as u64 - 1), help: "Which site this is, 0 to 15 and below --sites; by default what the folder says, or 0" },
            Argument { name: "sites", kind: OptionalNumber(1, SITES_MAX as u64), help: "How many sites there are, 1 to 16; by default what the folder says, or 1" },
            Argument { name: "keep", kind: OptionalNumber(1, KEEP_MAX as u64), help: "How many messages the site keeps, 1 to 1000000; by default what the folder says, or 1000000" },
            SHARDS, WORKERS, BATCH,
            Argument { name: "sync", kind: Flag, help: "Has each record on the disk before it is answered" },
            Argument { name: "shorten", kind: Flag, help: "Rewrites what was kept without the records that changed nothing, and reads none" },
            Argument { name: "upgrade", kind: Flag, help: "Writes answers in the text of another version anew" },
        ],
    },
];
