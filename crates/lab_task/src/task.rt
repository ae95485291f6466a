//! What a task says.

use lab_reader::Text;
use std::marker::Model;

/// A test: its name, its points, whether it is hidden, its hint, the line that begins it, and its
/// script, a lab file without the grafts that a submission gives. The script has a line for each
/// line of the test, the first of which is empty.
#[derive(Drop)]
pub struct Test {
    /// Its name.
    pub name: Text,
    /// Its points, up to 1,000.
    pub points: u32,
    /// Whether its name alone is told.
    pub hidden: bool,
    /// What is told to who fails; empty where there is nothing to tell.
    pub hint: Vec<u8>,
    /// The line of the task that begins it, from 1.
    pub begun: usize,
    /// Its script.
    pub script: Vec<u8>,
}

impl Model for Test {
    ghost use Rattle.lab_task.specs.Task as spec;

    ghost Value = { spec.Test };

    ghost view = { λ t. record {
      name = t.name;
      points = t.points;
      hidden = t.hidden;
      hint = t.hint.items;
      begun = t.begun;
      script = t.script.items;
    } };
}

/// What a task said so far. While a test is read, `testing` holds and the draft is that test, and `inside` says whether
/// a graft of it is being written.
#[derive(Drop)]
pub struct Task {
    pub(crate) title: Vec<u8>,
    pub(crate) gives: Vec<Text>,
    pub(crate) given: usize,
    pub(crate) score: Vec<u8>,
    pub(crate) most: bool,
    pub(crate) scored: usize,
    pub(crate) tests: Vec<Test>,
    pub(crate) testing: bool,
    pub(crate) draft: Test,
    pub(crate) inside: bool,
}

impl Model for Task {
    ghost use Rattle.lab_task.specs.Task as spec;

    ghost Value = { spec.Task };

    ghost view = { λ t. record {
      title = t.title.items;
      gives = t.gives.items;
      given = t.given;
      score = t.score.items;
      most = t.most;
      scored = t.scored;
      tests = t.tests.items;
      testing = t.testing;
      draft = t.draft;
      inside = t.inside;
    } };
}
