//! Runs of the whole program over sources, sinks and disks in memory that fail, and over a policy
//! of the tests' own.
#![tactic(auto)]

ghost use Rattle.std.specs.Prelude.{◌≡◌, map};
ghost use Rattle.kernel_model.specs.Opening.{opening_policy};
ghost use Rattle.graft_points.specs.Shelf.{IsShelf, pol_of, first_choice};

/// The seven stock policies, with this one for sequential reads.
#[cfg(test)]
macro_rules! shelf_with {
    ($alloc:expr, $sequential:expr) => {{
        let mut shelf: Vec<Box<dyn Policy>> = Vec::new($alloc);
        put_last(&mut shelf, Box::new($alloc, RaNone::new())?, 0, None)?;
        put_last(&mut shelf, Box::new($alloc, $sequential)?, 1, Some(2))?;
        put_last(&mut shelf, Box::new($alloc, RaNext::new())?, 2, Some(1))?;
        put_last(&mut shelf, Box::new($alloc, VictimLru::new())?, 3, None)?;
        put_last(&mut shelf, Box::new($alloc, VictimMark::new())?, 4, Some(0))?;
        put_last(&mut shelf, Box::new($alloc, SchedRound::new())?, 5, None)?;
        put_last(&mut shelf, Box::new($alloc, SchedNice::new())?, 6, Some(0))?;
        shelf
    }};
}

#[cfg(test)]
mod noting;

#[cfg(test)]
mod tests {
    use crate::noting::{Noting, Told};
    use graft_points::{
        Policy, RaNext, RaNone, RaSeq, SchedNice, SchedRound, VictimLru, VictimMark, is_stock,
        put_last,
    };
    use mem_disk::{Disk, Failed, MemDisk, MemSink, MemSource, Source};
    use std::alloc::{AllocError, Global};
    use std::cell::Cell;
    use std::rc::Rc;
    use std::test::Fail;
    use vino_top::vino;

    const KEY: &str = "000102030405060708090a0b0c0d0e0f101112131415161718191a1b1c1d1e1f";

    /// A run of the program: its status, what it wrote, and the disk afterwards.
    #[derive(Drop)]
    struct Ran {
        status: u8,
        written: MemSink,
        disk: MemDisk,
    }

    /// The words of the command line.
    fn words_of(alloc: Global, words: &[&str]) -> Result<Vec<String>, AllocError> {
        let mut all = Vec::new(alloc);
        for word in words {
            all.push(String::from_str(alloc, word)?)?;
        }
        Ok(all)
    }

    /// Runs the program over this source, the sample disk and these policies. The write and the
    /// call of the disk with these numbers fail; 0 is none.
    fn run_over<S: Source>(
        alloc: Global,
        words: &[&str],
        source: &mut S,
        failing: [u64; 2],
        shelf: Vec<Box<dyn Policy>>,
    ) -> Result<Ran, Fail>
        requires shelf { IsShelf (map ⟦<Box<dyn Policy> as Policy>⟧.seen shelf.items) }
        requires stock { pol_of (map ⟦<Box<dyn Policy> as Policy>⟧.seen shelf.items) first_choice
            ≡ opening_policy }
    {
        let [failing_write, failing_call] = failing;
        let words = words_of(alloc, words)?;
        let mut written = MemSink::new(alloc, Vec::from_slice(alloc, &[failing_write])?);
        let mut disk = MemDisk::sample(alloc, Vec::from_slice(alloc, &[failing_call])?)?;
        let status = vino(alloc, &words, source, &mut written, &mut disk, shelf);
        Ok(Ran {
            status,
            written,
            disk,
        })
    }

    /// The same over a source that gives this script, whose read with that number fails.
    fn run_with(
        alloc: Global,
        words: &[&str],
        script: &str,
        failing: [u64; 3],
        shelf: Vec<Box<dyn Policy>>,
    ) -> Result<Ran, Fail>
        requires shelf { IsShelf (map ⟦<Box<dyn Policy> as Policy>⟧.seen shelf.items) }
        requires stock { pol_of (map ⟦<Box<dyn Policy> as Policy>⟧.seen shelf.items) first_choice
            ≡ opening_policy }
    {
        let [failing_read, failing_write, failing_call] = failing;
        let script = Vec::from_slice(alloc, script.as_bytes())?;
        let mut source = MemSource::new(script, Vec::from_slice(alloc, &[failing_read])?);
        run_over(
            alloc,
            words,
            &mut source,
            [failing_write, failing_call],
            shelf,
        )
    }

    /// The same, over the stock policies.
    fn run_failing(
        alloc: Global,
        words: &[&str],
        script: &str,
        failing: [u64; 3],
    ) -> Result<Ran, Fail> {
        let shelf = shelf_with!(alloc, RaSeq::new());
        if !is_stock(&shelf) {
            return Err(AllocError.into());
        }
        run_with(alloc, words, script, failing, shelf)
    }

    /// Whether block b begins with these two bytes.
    fn begins(disk: &mut MemDisk, b: u32, bytes: &[u8; 2]) -> bool {
        b < disk.size() && disk.read_block(b).is_ok() && &disk.block()[..2] == bytes.as_slice()
    }

    /// Gives what another source gives, at most 40 bytes at a time.
    #[derive(Drop)]
    struct Trickle {
        inner: MemSource,
    }

    impl Source for Trickle {
        ghost use Rattle.std.specs.Prelude.{None};
        ghost use Rattle.mem_disk.specs.Memory.{source_seen};

        ghost seen = { λ s. record { rest = None; device = (source_seen s.inner).device } };

        fn read(&mut self, buf: &mut [u8]) -> Result<usize, Failed> {
            let room = buf.len().min(40);
            self.inner.read(&mut buf[..room])
        }
    }

    /// Runs the program over this source, and over the stock policies.
    fn run_source<S: Source>(alloc: Global, words: &[&str], source: &mut S) -> Result<Ran, Fail> {
        let shelf = shelf_with!(alloc, RaSeq::new());
        if !is_stock(&shelf) {
            return Err(AllocError.into());
        }
        run_over(alloc, words, source, [0, 0], shelf)
    }

    /// Runs the script of the long session, over a source that gives few bytes at a time, whose
    /// read with this number fails.
    fn run_trickling(alloc: Global, failing_read: u64) -> Result<Ran, Fail> {
        let script = Vec::from_slice(alloc, SESSION.as_bytes())?;
        let inner = MemSource::new(script, Vec::from_slice(alloc, &[failing_read])?);
        run_source(alloc, &["run", KEY], &mut Trickle { inner })
    }

    /// How many lines these bytes are.
    fn count_lines(bytes: &[u8]) -> usize {
        bytes.iter().filter(|byte| **byte == b'\n').count()
    }

    const STEPS: &str = "boot\nspawn 0\nyield 0\nyield 1\ntick\n";

    #[test]
    fn a_failed_call_of_the_disk_is_one_refusal(rt: HostRuntime) -> Result<(), Fail> {
        let script =
            "boot\nopen 0 gamma\nread 0 0 2 0 1\nread 0 0 2 0 1\nwrite 0 0 2 1 ff\nsync 0\n\
            sync 0\n";
        let cases = [
            (1u64, "0 E16\n1 E6\n2 E5\n3 E5\n4 E5\n5 ok 0\n6 ok 0\n"),
            (
                2,
                "0 boot 8 64 3\n1 ok 0\n2 E16\n3 data 2d\n3 ok\n4 ok\n5 ok 1\n6 ok 0\n",
            ),
            (
                3,
                "0 boot 8 64 3\n1 ok 0\n2 data 2d\n2 ok\n3 data 2d\n3 ok\n4 ok\n5 E16\n6 ok 1\n",
            ),
            (
                4,
                "0 boot 8 64 3\n1 ok 0\n2 data 2d\n2 ok\n3 data 2d\n3 ok\n4 ok\n5 ok 1\n6 ok 0\n",
            ),
        ];
        for (call, lines) in cases {
            let ran = run_failing(rt.alloc(), &["run", KEY], script, [0, 0, call])?;
            assert_eq!(rt; ran.status, 0, "at call {call}");
            assert!(rt; ran.written.bytes() == lines.as_bytes(), "at call {call}");
        }
        Ok(())
    }

    /// Two frames, a read ahead that evicts, a changed frame that is evicted, and another one that
    /// is synced. The disk is called for block 0, blocks 1 to 3, block 4, block 6 and the changed
    /// block 2, and the changed block 6.
    const EVICTIONS: &str =
        "frames 2\nboot\nopen 0 alpha\nread 0 0 0 0 4\nwrite 0 0 1 0 7879\nread 0 0 3 0 1\n\
        read 0 0 5 0 1\n\
        write 0 0 5 0 7a7a\nsync 0\n";

    #[test]
    fn each_call_of_the_disk_fails_in_turn(rt: HostRuntime) -> Result<(), Fail> {
        let cases = [
            (
                2u64,
                "2 E16\n3 ok\n4 data 7c\n4 ok\n5 data ba\n5 ok\n6 ok\n7 ok 1\n",
            ),
            (
                3,
                "2 data 1f202122\n2 E16\n3 ok\n4 data 7c\n4 ok\n5 data ba\n5 ok\n6 ok\n7 ok 1\n",
            ),
            (
                4,
                "2 data 1f202122\n2 E16\n3 ok\n4 data 7c\n4 ok\n5 data ba\n5 ok\n6 ok\n7 ok 1\n",
            ),
            (
                5,
                "2 data 1f202122\n2 ok\n3 ok\n4 E16\n5 data ba\n5 ok\n6 ok\n7 ok 2\n",
            ),
            (
                6,
                "2 data 1f202122\n2 ok\n3 ok\n4 data 7c\n4 ok\n5 E16\n6 ok\n7 ok 1\n",
            ),
            (
                7,
                "2 data 1f202122\n2 ok\n3 ok\n4 data 7c\n4 ok\n5 E16\n6 ok\n7 ok 1\n",
            ),
            (
                8,
                "2 data 1f202122\n2 ok\n3 ok\n4 data 7c\n4 ok\n5 data ba\n5 ok\n6 ok\n7 E16\n",
            ),
            (
                0,
                "2 data 1f202122\n2 ok\n3 ok\n4 data 7c\n4 ok\n5 data ba\n5 ok\n6 ok\n7 ok 1\n",
            ),
        ];
        for (call, lines) in cases {
            let lines = format!(in rt.alloc(); "0 boot 2 64 3\n1 ok 0\n{lines}")?;
            let mut ran = run_failing(rt.alloc(), &["run", KEY], EVICTIONS, [0, 0, call])?;
            assert_eq!(rt; ran.status, 0, "at call {call}");
            assert!(rt; ran.written.bytes() == lines.as_bytes(), "at call {call}");
            // The changed block that was evicted is on the disk, and so is the other one unless its
            // own write failed.
            assert!(rt; begins(&mut ran.disk, 2, b"xy"), "at call {call}");
            let last = if call == 8 { b"\xba\xbb" } else { b"zz" };
            assert!(rt; begins(&mut ran.disk, 6, last), "at call {call}");
        }
        Ok(())
    }

    /// A sequential reader with a graft that reads ahead and one that evicts, beside a plain
    /// reader: with a wait, a write, a yield and a sync. Another program computed the seals.
    const SESSION: &str = "boot\n\
        image 0 56475231010000000800000000000000040402000000000001050000030000000d06040500000000\
        160600000600000002010500000000001a0000000000000002010400000000001a0000000000000085a9380c\
        0c8a998c1b2a759a5fb62bd2e24ceae40e8342b555bf816dec78f679\n\
        image 1 5647523101000000040000000000000017000000060000000e000000ffffffff1700000007000000\
        1a000000000000007c7d7443096be342b6733039e33c1cdc0f6c2e1bf6b6684595e4d96240eca2b7\n\
        spawn 0\nspawn 0\ngive 0 1 steps 1000\nopen 1 beta\nopen 2 alpha\ninstall 1 0 0 16\n\
        bill 1 0\ninstall 1 4 1 16\nbill 1 4\n\
        read 1 0 0 0 2\nstep 1 100\nread 2 0 0 0 2\nread 1 0 1 0 2\nstep 1 100\nread 1 0 2 0 2\n\
        step 1 100\nread 2 0 1 0 2\n\
        read 1 0 3 0 2\ntick\nstep 2 100\nstep 1 100\nwrite 2 0 2 0 c0ffee\nstep 2 100\n\
        yield 0\nsync 0\n";

    const SESSION_LINES: &str =
        "0 boot 8 64 3\n1 ok 8 0\n2 ok 4 0\n3 ok 1\n4 ok 2\n5 ok\n6 ok 0\n7 ok 0\n8 ok\n9 ok\n\
        10 ok\n11 ok\n\
        12 data 1718\n12 graft 1 0 1\n12 ok\n13 ran 6\n14 data 1f20\n14 ok\n15 data 3637\n\
        15 graft 1 0 1\n15 ok\n16 ran 6\n\
        17 data 5556\n17 graft 1 0 1\n17 ok\n18 ran 10\n19 data 3e3f\n19 graft 1 4 1\n\
        20 waits Cache 2\n21 tick 1\n19 ok\n20 data 7475\n\
        22 ran 4\n20 ok\n23 ran 6\n24 graft 1 4 1\n24 ok\n25 ran 4\n26 ok 1\n27 ok 1\n";

    /// How many lines are refusals for the disk.
    fn disk_faults(lines: &[u8]) -> usize {
        lines
            .windows(5)
            .filter(|end| *end == b" E16\n".as_slice())
            .count()
    }

    #[test]
    fn one_failed_call_of_the_disk_is_one_line(rt: HostRuntime) -> Result<(), Fail> {
        for call in 1..200u64 {
            let ran = run_failing(rt.alloc(), &["run", KEY], SESSION, [0, 0, call])?;
            assert_eq!(rt; ran.status, 0, "at call {call}");
            if ran.written.bytes() == SESSION_LINES.as_bytes() {
                // The run makes fewer calls than this.
                assert!(rt; call > 15, "at call {call}");
                return Ok(());
            }
            assert_eq!(rt; disk_faults(ran.written.bytes()), 1, "at call {call}");
        }
        Err(AllocError.into())
    }

    #[test]
    fn a_failed_read_leaves_the_first_lines(rt: HostRuntime) -> Result<(), Fail> {
        let lines = SESSION_LINES.as_bytes();
        for read in 1..200u64 {
            let ran = run_trickling(rt.alloc(), read)?;
            if ran.status == 0 {
                assert!(rt; ran.written.bytes() == lines, "at read {read}");
                // One read for each 40 bytes, and one that finds the end.
                assert_eq!(rt; read as usize, SESSION.len().div_ceil(40) + 2);
                return Ok(());
            }
            assert_eq!(rt; ran.status, 3, "at read {read}");
            assert!(rt; lines.starts_with(ran.written.bytes()), "at read {read}");
        }
        Err(AllocError.into())
    }

    #[test]
    fn a_failed_write_leaves_the_first_lines(rt: HostRuntime) -> Result<(), Fail> {
        let lines = SESSION_LINES.as_bytes();
        for write in 1..200u64 {
            let ran = run_failing(rt.alloc(), &["run", KEY], SESSION, [0, write, 0])?;
            if ran.status == 0 {
                assert!(rt; ran.written.bytes() == lines, "at write {write}");
                // Each line of this script is one write.
                assert_eq!(rt; write as usize - 1, count_lines(SESSION.as_bytes()));
                return Ok(());
            }
            assert_eq!(rt; ran.status, 4, "at write {write}");
            assert!(rt; ran.written.bytes().len() < lines.len(), "at write {write}");
            assert!(rt; lines.starts_with(ran.written.bytes()), "at write {write}");
        }
        Err(AllocError.into())
    }

    #[test]
    fn a_drop_undoes_the_newest_change_first(rt: HostRuntime) -> Result<(), Fail> {
        let alloc = rt.alloc();
        let known = Rc::new(alloc, Cell::new(Told::nothing()))?;
        let noting = Noting {
            blocks: 2,
            known: known.clone()?,
        };
        let shelf = shelf_with!(alloc, noting);
        if !is_stock(&shelf) {
            return Err(AllocError.into());
        }
        let script = format!(in alloc;
            "boot\nimage 0 {TUNES}\nopen 0 alpha\ninstall 0 0 0 50\nbill 0 0\nread 0 0 0 0 1\n\
            step 0 11\n"
        )?;
        let lines = "0 boot 8 64 3\n1 ok 11 0\n2 ok 0\n3 ok\n4 ok\n5 data 1f\n5 graft 0 0 1\n\
            5 drop 0 0 C1\n5 ok\n6 ran 10\n";
        let ran = run_with(alloc, &["run", KEY], script.as_str(), [0; 3], shelf)?;
        assert!(rt; ran.written.bytes() == lines.as_bytes());
        assert_eq!(rt; known.get().count, 4);
        assert!(rt; known.get().values[..4] == [5, 6, 5, 2]);
        Ok(())
    }

    /// Sets the parameter of reading ahead to 5 and to 6, then divides by zero. Another program
    /// computed the seal.
    const TUNES: &str =
        "56475231010000000b000000000000000100000000000000010100000000000001020000050000001700000\
        00b000000010000000000000001010000000000000102000006000000170000000b000000010700000000000\
        00b070707000000001a000000000000008211e4388f02474685ac91110290a570ee60e9a820be0de1033cf87\
        9e02262ce";

    #[test]
    fn stops_at_a_failing_read(rt: HostRuntime) -> Result<(), Fail> {
        let lines = b"0 boot 8 64 3\n1 ok 1\n2 ok 1\n3 ok 0\n4 tick 1\n";
        // The first read gives the whole script and the second its end, so there is no third.
        for (failing, status, written) in [
            (1u64, 3u8, 0usize),
            (2, 3, lines.len()),
            (3, 0, lines.len()),
        ] {
            let ran = run_failing(rt.alloc(), &["run", KEY], STEPS, [failing, 0, 0])?;
            assert_eq!(rt; ran.status, status, "at read {failing}");
            assert!(rt; written <= lines.len());
            assert!(rt;
                ran.written.bytes() == &lines[..written],
                "at read {failing}"
            );
        }
        Ok(())
    }

    #[test]
    fn stops_at_a_failing_write(rt: HostRuntime) -> Result<(), Fail> {
        let lines = b"0 boot 8 64 3\n1 ok 1\n2 ok 1\n3 ok 0\n4 tick 1\n";
        // Each event is one write: what was written before the failing one stands, and nothing
        // after it.
        let ends = [0usize, 14, 21, 28, 35, lines.len()];
        for (failing, written) in ends.iter().enumerate() {
            let number = failing as u64 + 1;
            let ran = run_failing(rt.alloc(), &["run", KEY], STEPS, [0, number, 0])?;
            let status = if failing == 5 { 0 } else { 4 };
            assert_eq!(rt; ran.status, status, "at write {number}");
            assert!(rt; *written <= lines.len());
            assert!(rt;
                ran.written.bytes() == &lines[..*written],
                "at write {number}"
            );
        }
        Ok(())
    }
}
