// A transcript as it is run, part by part.
use crate::counting::{assert_levels, assert_mapped, assert_version, assert_writes};
use crate::lines::Lines;
use crate::part::{Kind, Part};
use crate::reading::read;
use crate::running::{new_store, run_lines};
use crate::stopping::{Ran, assert_commits, image_at};
use crate::turning::{assert_turned, made};
use anyhow::{Context, Result, bail};
use rss_device::MemDevice;
use rss_images::UNSYNCED;
use rss_scripts::without_moments;
use std::alloc::Global;
use std::fs;
use std::rt::Files;

/// The store with which each case begins, the one before the last run, what that left, and the probe.
#[derive(Drop)]
struct Player {
    head: MemDevice,
    before: MemDevice,
    after: MemDevice,
    probe: Vec<u8>,
}

/// Runs lines over each that a stop at the last moment of a run may leave.
fn run_stopped<R: AllocGlobal + Print>(
    rt: &R,
    name: &str,
    lines: &Lines,
    after: &MemDevice,
) -> Result<()> {
    for unsynced in UNSYNCED {
        let store = image_at(rt.alloc(), after, after.moment(), unsynced)?;
        run_lines(rt, name, lines, &store)?;
    }
    Ok(())
}

impl Player {
    fn new(alloc: Global) -> Self {
        Player {
            head: MemDevice::empty(alloc),
            before: MemDevice::empty(alloc),
            after: MemDevice::empty(alloc),
            probe: Vec::new(alloc),
        }
    }

    /// Runs lines over the store that stands before them.
    fn run<R: AllocGlobal + Print>(&mut self, rt: &R, name: &str, lines: &Lines) -> Result<()> {
        self.after = run_lines(rt, name, lines, &self.before)?;
        Ok(())
    }

    /// Begins a run: puts before it the store that it wants.
    fn begin(&mut self, alloc: Global, kind: Kind) -> Result<()> {
        self.before = match kind {
            Kind::Store(slots, log_pages) => new_store(alloc, slots, log_pages)?,
            Kind::Case => without_moments(alloc, &self.head)?,
            _ => without_moments(alloc, &self.after)?,
        };
        Ok(())
    }

    /// Looks at what the run before left.
    fn look<R: AllocGlobal + Print>(&mut self, rt: &R, name: &str, part: &Part) -> Result<()> {
        let alloc = rt.alloc();
        let lines = &part.lines;
        match part.kind {
            Kind::Stopped => run_stopped(rt, name, lines, &self.after),
            Kind::Writes(count) => assert_writes(&self.after, count),
            Kind::Mapped(count) => assert_mapped(alloc, &self.after, count),
            Kind::Levels(count) => assert_levels(alloc, &self.after, count),
            Kind::Version(version) => assert_version(&self.after, version),
            Kind::Turned => assert_turned(alloc, &self.after, self.probe.as_slice(), lines, true),
            Kind::Recovered => assert_turned(
                alloc,
                &self.after,
                self.probe.as_slice(),
                lines,
                false,
            ),
            _ => Ok(()),
        }
    }

    /// Takes a part, and then what is found of its commits.
    fn take<R: AllocGlobal + Print>(
        &mut self,
        rt: &R,
        name: &str,
        part: &Part,
        found: &[Part],
    ) -> Result<()> {
        let alloc = rt.alloc();
        match part.kind {
            Kind::Store(..) | Kind::Case | Kind::Again => {
                self.begin(alloc, part.kind)?;
                self.run(rt, name, &part.lines)?;
            }
            Kind::Made => self.after = made(alloc, &self.after, &part.lines)?,
            Kind::Probe => self.probe = Vec::from_slice(alloc, part.lines.script.as_slice())?,
            _ => self.look(rt, name, part)?,
        }
        if let Kind::Store(..) = part.kind {
            self.head = without_moments(alloc, &self.after)?;
        }
        let ran = Ran {
            lines: &part.lines,
            before: &self.before,
            after: &self.after,
        };
        assert_commits(alloc, ran, found)
    }
}

/// The parts right after a place that tell what is found.
fn found_after(parts: &[Part], at: usize) -> &[Part] {
    let Some(rest) = parts.get(at.saturating_add(1)..) else {
        return &[];
    };
    let other = rest.iter().position(|part| part.kind != Kind::Found);
    match other {
        Some(count) => rest.get(..count).unwrap_or(&[]),
        None => rest,
    }
}

/// Runs the parts of a transcript.
fn play<R: AllocGlobal + Print>(rt: &R, name: &str, parts: &[Part]) -> Result<()> {
    let mut player = Player::new(rt.alloc());
    for (at, part) in parts.iter().enumerate() {
        if part.kind == Kind::Found {
            continue;
        }
        if let Err(error) = player.take(rt, name, part, found_after(parts, at)) {
            bail!("the part of line {}: {error}", part.place);
        }
    }
    Ok(())
}

/// Runs the transcript of this name, in a folder.
pub(crate) fn play_file<R: Files + AllocGlobal + Print>(
    rt: &R,
    folder: &str,
    name: &str,
) -> Result<()> {
    let path = format!(in rt.alloc(); "{folder}{name}.transcript")?;
    let text = fs::read_to_string(rt, path.as_str()).context(format_args!("reading {path}"))?;
    let parts = read(rt.alloc(), text.as_str())?;
    play(rt, name, parts.as_slice())
}
