//! Laws of the tables of calls beside the plain one: of event points, of stream points, and of two
//! tables as one.

ghost use Rattle.kernel_model.specs.EventPoints.{event_points};
ghost use Rattle.kernel_model.specs.StreamPoints.{stream_points};
ghost use Rattle.call_laws.specs.BesideLaws.{TablesStandBeside};
ghost use Rattle.call_laws.specs.EventLaws.{laws_of_event_points};
ghost use Rattle.call_laws.specs.StreamLaws.{laws_of_stream_points};

use kernel_model::Rules;

/// The table of event points.
#[derive(Clone, Copy, Drop)]
pub struct EventRules;

impl Rules for EventRules {
    ghost meaning = { event_points };

    ghost laws = { laws_of_event_points };
}

/// The table of stream points.
#[derive(Clone, Copy, Drop)]
pub struct StreamRules;

impl Rules for StreamRules {
    ghost meaning = { stream_points };

    ghost laws = { laws_of_stream_points };
}

/// Two tables of calls that meet the laws of every table meet them as one table. A call of it
/// brings the law into a proof.
pub fn tables_stand_beside()
    ensures { TablesStandBeside }
{}
