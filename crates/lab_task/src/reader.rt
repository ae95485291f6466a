//! A task, read line by line.

ghost use Rattle.std.specs.Prelude.{◌≡◌, ◌≤◌, ◌==◌, ◌∷◌, ◌++◌, [], length, map, false, Ok, IfOk, OnOk};
ghost use Rattle.std.specs.List.{slice_split};
ghost use Rattle.script_model.specs.Bytes as model;
ghost use Rattle.lab_reader.specs.Words.{parts_of, words_before};
ghost use Rattle.lab_task.specs.Faults.{StepsAs, ReadsAs};
ghost use Rattle.lab_task.specs.Task as spec;

use crate::faults::{TaskFault, TaskKind};
use crate::task::{Task, Test};
use crate::words::{add_words, is_name, words_of};
use lab_reader::{Text, with_spaces};
use script_model::NoMemory;
use std::alloc::Global;
use std::mem;
use text_words::{Parts, append, number_of, put};

/// The most points of a test.
const MOST_POINTS: u32 = 1_000;

/// A text of its own with these bytes.
fn text_of(alloc: Global, bytes: &[u8]) -> Result<Text, NoMemory>
    ensures { IfOk result (λ text. text ≡ bytes.now) }
{
    let mut text = Vec::new(alloc);
    append(&mut text, bytes)?;
    Ok(Text::new(text))
}

impl Test {
    /// A test with no line yet.
    fn new(alloc: Global, name: Text, points: u32, hidden: bool, begun: usize) -> Test
        ensures { result ≡ spec.new_test name points hidden begun }
    {
        Test {
            name,
            points,
            hidden,
            hint: Vec::new(alloc),
            begun,
            script: Vec::new(alloc),
        }
    }

    /// No test.
    fn none(alloc: Global) -> Test
        ensures { result ≡ spec.new_test [] 0 false 0 }
    {
        Test::new(alloc, Text::new(Vec::new(alloc)), 0, false, 0)
    }
}

/// Whether one of these tests has this name.
fn is_taken(name: &[u8], tests: &[Test]) -> bool
    ensures { result ≡ spec.is_taken name.now tests.now }
{
    tests.iter().any(|test| name == test.name.bytes())
}

/// Puts words behind others, as texts of their own.
fn put_texts(alloc: Global, texts: &mut Vec<Text>, words: &[&[u8]]) -> Result<(), NoMemory>
    ensures { OnOk result (texts.new.items
        ≡ texts.old.items ++ map (λ (w : _). w.now) words.now) }
{
    for word in words {
        put(texts, text_of(alloc, word)?)?;
    }
    Ok(())
}

impl Task {
    /// Before the first line.
    fn new(alloc: Global) -> Task
        ensures { result ≡ spec.first_task }
    {
        Task {
            title: Vec::new(alloc),
            gives: Vec::new(alloc),
            given: 0,
            score: Vec::new(alloc),
            most: false,
            scored: 0,
            tests: Vec::new(alloc),
            testing: false,
            draft: Test::none(alloc),
            inside: false,
        }
    }

    /// What the task is called; empty where no line says it.
    pub fn title(&self) -> &[u8]
        ensures { result.now ≡ self.now.title }
    {
        self.title.as_slice()
    }

    /// The names of the grafts that a submission gives.
    pub fn gives(&self) -> &[Text]
        ensures { result.now ≡ self.now.gives }
    {
        self.gives.as_slice()
    }

    /// The line that says which grafts a submission gives.
    pub fn given(&self) -> usize
        ensures { result ≡ self.now.given }
    {
        self.given
    }

    /// The figure by which submissions are ranked; empty where no line says it.
    pub fn score(&self) -> &[u8]
        ensures { result.now ≡ self.now.score }
    {
        self.score.as_slice()
    }

    /// Whether more of that figure is better.
    pub fn ranks_most(&self) -> bool
        ensures { result ≡ self.now.most }
    {
        self.most
    }

    /// The line that says the figure, or 0.
    pub fn scored(&self) -> usize
        ensures { result ≡ self.now.scored }
    {
        self.scored
    }

    /// The tests, in their order.
    pub fn tests(&self) -> &[Test]
        ensures { result.now ≡ self.now.tests }
    {
        self.tests.as_slice()
    }

    /// A line more of the script of the test that is open.
    fn add_script(&mut self, line: &[u8]) -> Result<(), NoMemory>
        ensures { OnOk result (self.new ≡ spec.with_script self.old line.now) }
    {
        append(&mut self.draft.script, line)?;
        append(&mut self.draft.script, b"\n")
    }

    /// A line of the script, or a line before the first test that says something.
    fn keep(&mut self, n: usize, line: &[u8]) -> Result<(), TaskFault>
        ensures { StepsAs result self.new (spec.kept n self.old line.now) }
    {
        if self.testing {
            Ok(self.add_script(line)?)
        } else {
            Err(TaskFault::At(n, TaskKind::StrayLine))
        }
    }

    /// An empty line or a remark.
    fn pass_over(&mut self, line: &[u8]) -> Result<(), NoMemory>
        ensures { OnOk result (self.new ≡ spec.passed_over self.old line.now) }
    {
        if self.testing {
            return self.add_script(line);
        }
        Ok(())
    }

    /// The title.
    fn set_title(&mut self, n: usize, words: &[&[u8]]) -> Result<(), TaskFault>
        ensures { StepsAs result self.new (spec.titled n self.old
            (map (λ (w : _). w.now) words.now)) }
    {
        if self.testing || !self.title.is_empty() || words.is_empty() {
            return Err(TaskFault::At(n, TaskKind::BadTitle));
        }
        Ok(add_words(&mut self.title, words)?)
    }

    /// The grafts that a submission gives.
    fn set_gives(&mut self, alloc: Global, n: usize, words: &[&[u8]]) -> Result<(), TaskFault>
        ensures { StepsAs result self.new (spec.giving n self.old
            (map (λ (w : _). w.now) words.now)) }
    {
        if self.testing || self.given != 0 || words.is_empty() {
            return Err(TaskFault::At(n, TaskKind::BadGives));
        }
        put_texts(alloc, &mut self.gives, words)?;
        self.given = n;
        Ok(())
    }

    /// The figure by which submissions are ranked.
    fn set_figure(&mut self, n: usize, figure: &[u8], most: bool) -> Result<(), TaskFault>
        ensures { StepsAs result self.new (spec.ranked n self.old figure.now most) }
    {
        if self.testing || self.scored != 0 {
            return Err(TaskFault::At(n, TaskKind::BadScore));
        }
        append(&mut self.score, figure)?;
        self.most = most;
        self.scored = n;
        Ok(())
    }

    /// The same by the words behind `score`.
    fn set_score(&mut self, n: usize, words: &[&[u8]]) -> Result<(), TaskFault>
        ensures { StepsAs result self.new (spec.scoring n self.old
            (map (λ (w : _). w.now) words.now)) }
    {
        match words {
            [way, figure] if *way == b"least".as_slice() => self.set_figure(n, figure, false),
            [way, figure] if *way == b"most".as_slice() => self.set_figure(n, figure, true),
            _ => Err(TaskFault::At(n, TaskKind::BadScore)),
        }
    }

    /// The test that is open is done.
    fn close(&mut self, alloc: Global) -> Result<(), NoMemory>
        ensures { OnOk result (self.new ≡ spec.closed self.old) }
    {
        if self.testing {
            let test = mem::replace(&mut self.draft, Test::none(alloc));
            put(&mut self.tests, test)?;
            self.testing = false;
        }
        Ok(())
    }

    /// A test begins behind those that are done.
    fn begin(
        &mut self,
        alloc: Global,
        n: usize,
        name: &[u8],
        points: u32,
        hidden: bool,
    ) -> Result<(), TaskFault>
        ensures { StepsAs result self.new (spec.begins n self.old name.now points hidden) }
    {
        if is_taken(name, self.tests.as_slice()) {
            return Err(TaskFault::At(n, TaskKind::TestTwice));
        }
        let name = text_of(alloc, name)?;
        self.testing = true;
        self.draft = Test::new(alloc, name, points, hidden, n);
        Ok(self.add_script(b"")?)
    }

    /// The same, where the points are a number up to 1,000 and the name is one.
    fn begin_named(
        &mut self,
        alloc: Global,
        n: usize,
        name: &[u8],
        points: &[u8],
        hidden: bool,
    ) -> Result<(), TaskFault>
        ensures { StepsAs result self.new
            (spec.pointed n self.old name.now (model.number_of points.now) hidden) }
    {
        match number_of(points) {
            None => Err(TaskFault::At(n, TaskKind::BadPoints)),
            Some(points) => {
                if points > MOST_POINTS {
                    return Err(TaskFault::At(n, TaskKind::BadPoints));
                }
                if !is_name(name) {
                    return Err(TaskFault::At(n, TaskKind::BadTest));
                }
                self.begin(alloc, n, name, points, hidden)
            }
        }
    }

    /// The same by the words behind `test`.
    fn begin_test(&mut self, alloc: Global, n: usize, words: &[&[u8]]) -> Result<(), TaskFault>
        ensures { StepsAs result self.new (spec.tested n self.old
            (map (λ (w : _). w.now) words.now)) }
    {
        match words {
            [_] => Err(TaskFault::At(n, TaskKind::BadPoints)),
            [name, points] => self.begin_named(alloc, n, name, points, false),
            [name, points, word] if *word == b"hidden".as_slice() => {
                self.begin_named(alloc, n, name, points, true)
            }
            _ => Err(TaskFault::At(n, TaskKind::BadTest)),
        }
    }

    /// What is told to who fails the test that is open.
    fn add_hint(&mut self, n: usize, words: &[&[u8]]) -> Result<(), TaskFault>
        ensures { StepsAs result self.new (spec.hinted n self.old
            (map (λ (w : _). w.now) words.now)) }
    {
        if !self.testing {
            return Err(TaskFault::At(n, TaskKind::StrayLine));
        }
        add_words(&mut self.draft.hint, words)?;
        Ok(self.add_script(b"")?)
    }

    /// A test begins, and the one that is open is done.
    fn next_test(&mut self, alloc: Global, n: usize, words: &[&[u8]]) -> Result<(), TaskFault>
        ensures { StepsAs result self.new (spec.tested n (spec.closed self.old)
            (map (λ (w : _). w.now) words.now)) }
    {
        self.close(alloc)?;
        self.begin_test(alloc, n, words)
    }

    /// A graft of the test begins.
    fn begin_graft(&mut self, n: usize, line: &[u8]) -> Result<(), TaskFault>
        ensures { StepsAs result self.new (spec.grafting (spec.kept n self.old line.now)) }
    {
        self.keep(n, line)?;
        self.inside = true;
        Ok(())
    }

    /// What a line outside of grafts adds, by its first word and those behind it.
    fn add_by_first(
        &mut self,
        alloc: Global,
        n: usize,
        line: &[u8],
        first: &[u8],
        rest: &[&[u8]],
    ) -> Result<(), TaskFault>
        ensures { StepsAs result self.new (spec.by_first n self.old line.now first.now
            (map (λ (w : _). w.now) rest.now)) }
    {
        if first == b"title".as_slice() {
            self.set_title(n, rest)
        } else if first == b"gives".as_slice() {
            self.set_gives(alloc, n, rest)
        } else if first == b"score".as_slice() {
            self.set_score(n, rest)
        } else if first == b"test".as_slice() {
            self.next_test(alloc, n, rest)
        } else if first == b"hint".as_slice() {
            self.add_hint(n, rest)
        } else if first == b"disk".as_slice() {
            Err(TaskFault::At(n, TaskKind::DiskFile))
        } else if first == b"graft".as_slice() {
            self.begin_graft(n, line)
        } else {
            self.keep(n, line)
        }
    }

    /// What a line outside of grafts adds.
    fn add_outside(
        &mut self,
        alloc: Global,
        n: usize,
        line: &[u8],
        words: &[&[u8]],
    ) -> Result<(), TaskFault>
        ensures { StepsAs result self.new (spec.outside n self.old line.now
            (map (λ (w : _). w.now) words.now)) }
    {
        match words.split_first() {
            None => Ok(self.pass_over(line)?),
            Some((first, rest)) => self.add_by_first(alloc, n, line, first, rest),
        }
    }

    /// What a line inside a graft adds.
    fn add_within(&mut self, line: &[u8], words: &[&[u8]]) -> Result<(), NoMemory>
        ensures { OnOk result (self.new ≡ spec.within self.old line.now
            (map (λ (w : _). w.now) words.now)) }
    {
        self.add_script(line)?;
        self.inside = !is_end(words);
        Ok(())
    }

    /// What a line adds.
    fn add_line(&mut self, alloc: Global, n: usize, line: &[u8]) -> Result<(), TaskFault>
        ensures { StepsAs result self.new (spec.with_line n self.old line.now) }
    {
        let words = words_of(alloc, line)?;
        if self.inside {
            return Ok(self.add_within(line, words.as_slice())?);
        }
        self.add_outside(alloc, n, line, words.as_slice())
    }

    /// The last test is done; there is a test, and grafts are given.
    fn finish(&mut self, alloc: Global) -> Result<(), TaskFault>
        ensures { StepsAs result self.new (spec.finished self.old) }
    {
        self.close(alloc)?;
        if self.tests.is_empty() {
            return Err(TaskFault::At(1, TaskKind::NoTest));
        }
        if self.given == 0 {
            return Err(TaskFault::At(1, TaskKind::NoGives));
        }
        Ok(())
    }
}

/// Whether these words end a graft.
pub(crate) fn is_end(words: &[&[u8]]) -> bool
    ensures { result ≡ spec.is_end (map (λ (w : _). w.now) words.now) }
{
    match words {
        [word] => *word == b"end".as_slice(),
        _ => false,
    }
}

/// All lines of a text.
fn read_lines(alloc: Global, text: &[u8]) -> Result<Task, TaskFault>
    requires { length text.now ≤ 16_777_216 }
    ensures { ReadsAs result (spec.with_lines 1 spec.first_task
        (slice_split (λ b. b == 10) text.now)) }
{
    let mut task = Task::new(alloc);
    let mut lines = Parts::new(text, b'\n');
    let mut number = 1;
    while let Some(line) = lines.next() {
        task.add_line(alloc, number, line)?;
        number += 1;
    }
    Ok(task)
}

/// What a text says whose tabs and carriage returns are spaces.
fn read_spaced(alloc: Global, text: &[u8]) -> Result<Task, TaskFault>
    requires { length text.now ≤ 16_777_216 }
    ensures { ReadsAs result (spec.task_of_spaced text.now) }
{
    let mut task = read_lines(alloc, text)?;
    task.finish(alloc)?;
    Ok(task)
}

/// What a task says, or the line that is refused and why.
pub fn read_task(alloc: Global, text: &[u8]) -> Result<Task, TaskFault>
    requires { length text.now ≤ 16_777_216 }
    ensures { ReadsAs result (spec.task_of text.now) }
{
    let spaced = with_spaces(alloc, text)?;
    read_spaced(alloc, spaced.as_slice())
}
