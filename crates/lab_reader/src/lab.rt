//! What a lab file said so far.

use crate::graft::Graft;
use crate::settings::Settings;
use crate::sheet::Sheet;
use crate::table::GraftTable;
use std::marker::Model;

/// What a lab file says: its settings, its grafts, and its lines for the script. Inside a graft the
/// draft is that graft.
#[derive(Drop)]
pub struct Lab {
    pub(crate) settings: Settings,
    pub(crate) grafts: GraftTable,
    pub(crate) inside: bool,
    pub(crate) draft: Graft,
    pub(crate) sheet: Sheet,
}

impl Model for Lab {
    ghost use Rattle.lab_reader.specs.Lab as spec;

    ghost Value = { spec.Lab };

    ghost view = { λ l. record {
      settings = l.settings;
      grafts = l.grafts;
      inside = l.inside;
      draft = l.draft;
      sheet = l.sheet;
    } };
}
