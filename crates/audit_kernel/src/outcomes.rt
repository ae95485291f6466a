//! What a step leaves: a call in a graft, or a piece that is finished.

ghost use Rattle.std.specs.Prelude.{◌≡◌, ℕ, Option, List, OnOk, Some, None, map};
ghost use Rattle.kernel_model.specs.AllCalls.{all_calls};
ghost use Rattle.kernel_model.specs.History as history;
ghost use Rattle.kernel_model.specs.Kernel as model;
ghost use Rattle.kernel_model.specs.Settle as settle;
ghost use Rattle.audit_state.specs.Worlds.{world_of};
ghost use Rattle.audit_needs.specs.Stages.{stage_of};
ghost use Rattle.audit_levels.specs.Levels.{config_of};
ghost use Rattle.audit_pieces.specs.Stores.{objects_of, page_of};
ghost use Rattle.audit_pieces.specs.Ends.{answer_of};
ghost use Rattle.audit_replay.specs.Traces.{mark_of};
ghost use Rattle.audit_kernel.specs.Asked.{is_grafted};
ghost use Rattle.audit_kernel.specs.Runs.{run_of, AreKept};

use crate::Run;
use crate::flights::{in_graft, point_of, put};
use audit_levels::Config;
use audit_needs::Stage;
use audit_pieces::Answer;
use audit_replay::Mark;
use kernel_model::{NoMemory, Point};

impl Run {
    /// Whether a graft stands at the point that is asked, if one is.
    #[tactic(auto, unfolding(audit_pieces::specs::Stores::objects_of))]
    fn is_grafted(&self, point: Option<Point>) -> bool
        ensures { result ≡ is_grafted (objects_of self.now.store) point }
    {
        match point {
            None => false,
            Some(point) => self
                .store
                .accounts
                .graft(point.installer, point.point)
                .is_some(),
        }
    }

    /// A piece: a history begins where a graft stands at its point, else the default finishes it.
    /// The call itself isn't among those in flight.
    pub(crate) fn piece_step(&mut self, p: u8, number: u32, stage: Stage) -> Result<(), NoMemory>
        requires kept { AreKept self.old }
        ensures run { OnOk result (run_of self.new ≡ settle.piece_step all_calls p
            (record { number = number; stage = stage_of stage; marks = None })
            (all_calls.asks (world_of self.old.setting.world) (objects_of self.old.store) p
            (stage_of stage)) (run_of self.old)) }
        ensures kept { OnOk result (AreKept self.new) }
    {
        let point = point_of(&self.setting, &self.store, p, &stage)?;
        if self.is_grafted(point) {
            let marks = Vec::new(self.setting.alloc);
            self.put_marks(p, number, stage, marks)?;
            Ok(())
        } else {
            self.finish(p, number, stage, &None)?;
            Ok(())
        }
    }

    /// A call is in a graft with this history, which is run again. The call itself isn't among
    /// those in flight before.
    pub(crate) fn put_marks(
        &mut self,
        p: u8,
        number: u32,
        stage: Stage,
        marks: Vec<Mark>,
    ) -> Result<(), NoMemory>
        requires kept { AreKept self.old }
        ensures run { OnOk result (run_of self.new ≡ model.with_call p (Some (record {
          number = number;
          stage = stage_of stage;
          marks = Some (map mark_of marks.items);
        })) (run_of self.old)) }
        ensures kept { OnOk result (AreKept self.new) }
    {
        let flight = in_graft(&self.setting, &self.store, p, number, stage, marks)?;
        put(&mut self.flights, p, Some(flight))?;
        Ok(())
    }

    /// A graft call ended with an answer: its objects are committed, and the piece is finished with
    /// the answer.
    #[tactic(auto, unfolding(audit_pieces::specs::Stores::objects_of, audit_pieces::specs::Stores::blocks_of))]
    pub(crate) fn complete(
        &mut self,
        p: u8,
        number: u32,
        stage: Stage,
        config: Config,
        answer: &Option<Answer>,
    ) -> Result<(), NoMemory>
        ensures run { OnOk result ((marks : Option (List history.Mark)) → run_of self.new
            ≡ settle.finish_on all_calls p
            (record { number = number; stage = stage_of stage; marks = marks })
            (config_of (page_of self.old.store) config).now (answer_of answer.now)
            (run_of self.old)) }
        ensures kept { OnOk result (AreKept self.new) }
    {
        self.store.accounts = config.accounts;
        self.store.things = config.things;
        self.finish(p, number, stage, answer)?;
        Ok(())
    }

    /// Level 0 was dropped: of what it did only accounts and grafts stay, and the default finishes
    /// the piece.
    #[tactic(auto, unfolding(audit_pieces::specs::Stores::objects_of, audit_pieces::specs::Stores::blocks_of))]
    pub(crate) fn lose(
        &mut self,
        p: u8,
        number: u32,
        stage: Stage,
        config: Config,
    ) -> Result<(), NoMemory>
        ensures run { OnOk result ((marks : Option (List history.Mark)) → run_of self.new
            ≡ settle.finish_on all_calls p
            (record { number = number; stage = stage_of stage; marks = marks })
            (settle.lost_objects (config_of (page_of self.old.store) config).now
            (objects_of self.old.store)) None (run_of self.old)) }
        ensures kept { OnOk result (AreKept self.new) }
    {
        self.store.accounts = config.accounts;
        self.finish(p, number, stage, &None)?;
        Ok(())
    }
}
