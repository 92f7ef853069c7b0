//! What a site that stays up is given, kept before it is answered, and answered again after a crash; and the folder that
//! it stands in.
#![tactic(auto)]

mod answers;
mod checking;
mod comparing;
mod counts;
mod fault;
mod feeding;
mod files;
mod folder_seam;
mod keep;
mod keeping;
mod limits;
mod lines;
mod pages;
mod pieces;
mod plain_lines;
mod questions;
mod replying;
mod run;
mod seam;
mod setup;
mod shortening;
mod showing;
mod site;
mod site_files;
mod unread;

pub use answers::Answers;
pub use fault::{Difference, FolderFault, KeepFault};
pub use folder_seam::FolderHistory;
pub use keep::{Wanted, keep_folder};
pub use keeping::KeptLines;
pub use limits::limits_of_questions_are_these_numbers;
pub use lines::{Cut, KEYED_MAX, LINE_MAX, LineCutter};
pub use pages::{Listed, PAGE_MAX, Page};
pub use questions::Question;
pub use run::Recording;
pub use setup::Setup;
pub use shortening::shorten;
pub use site::{Clerk, keep_site};
pub use site_files::SiteFiles;
pub use unread::Unread;
