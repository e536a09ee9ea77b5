//! Fabrics.

ghost use Rattle.std.specs.Prelude.{◌≡◌, ◌<◌, ◌≤◌, ◌+◌, ◌*◌, ◌++◌, ◌∷◌, [], length, sum};
ghost use Rattle.std.specs.Prelude.{All, AllPairs, IfOk, OnOk, OnErr};
ghost use Rattle.fabric.specs.Plan.{bands, IsFabric, IsSegment, IsLine, IsMark, empty, with_added};
ghost use Rattle.fabric.specs.Plan.{SegmentsApart, LinesApart, MarksApart};
ghost use Rattle.fabric.specs.Room.{limit, IsRoomy};
ghost use Rattle.fabric.specs.Shape.{shape};
ghost use Rattle.fabric.specs.Counted.{rectangle_count, thing_count};

use crate::drawing::{bases, draw_lines, draw_marks, draw_segments, frame};
use crate::thing::{Line, Mark, Segment};
use lam_geom::Shape;
use mp_base::{List, NoMemory};
use std::alloc::Global;
use std::marker::Model;

/// Columns of tiles, in bands of rows that stand on each other, with segments, lines and marks in them.
#[derive(Drop)]
pub struct Fabric {
    pub(crate) columns: u32,
    pub(crate) rows: List<u32>,
    pub(crate) segments: List<Segment>,
    pub(crate) lines: List<Line>,
    pub(crate) marks: List<Mark>,
}

impl Model for Fabric {
    ghost use Rattle.fabric.specs.Plan.{Plan};

    ghost Value = { Plan };

    ghost use Rattle.fabric.specs.Room.{IsKept as Kept};

    ghost view = { λ s. record {
      columns = s.columns;
      rows = s.rows;
      segments = s.segments;
      lines = s.lines;
      marks = s.marks;
    } };

    ghost invariant = { λ s. Kept (record {
      columns = s.columns;
      rows = s.rows;
      segments = s.segments;
      lines = s.lines;
      marks = s.marks;
    }) };
}

impl Fabric {
    /// A fabric in which nothing stands. There is a number of signal rows for each band.
    pub fn new(alloc: Global, columns: u32, rows: List<u32>) -> Result<Fabric, NoMemory>
        requires columns { 3 ≤ columns }
        requires bands { 1 ≤ length rows }
        requires rows { All (λ r. 1 ≤ r) rows }
        requires room { (columns < limit) × (length rows < limit) × (sum rows < limit) }
        ensures { IfOk result (λ f. f ≡ empty columns rows) }
    {
        Ok(Fabric {
            columns,
            rows,
            segments: List::new(alloc),
            lines: List::new(alloc),
            marks: List::new(alloc),
        })
    }

    pub fn columns(&self) -> u32
        ensures { result ≡ self.now.columns }
    {
        self.columns
    }

    /// The number of signal rows of each band.
    pub fn rows(&self) -> &[u32]
        ensures { result.now ≡ self.now.rows }
    {
        self.rows.as_slice()
    }

    pub fn segments(&self) -> &[Segment]
        ensures { result.now ≡ self.now.segments }
    {
        self.segments.as_slice()
    }

    pub fn lines(&self) -> &[Line]
        ensures { result.now ≡ self.now.lines }
    {
        self.lines.as_slice()
    }

    pub fn marks(&self) -> &[Mark]
        ensures { result.now ≡ self.now.marks }
    {
        self.marks.as_slice()
    }

    /// Adds a segment.
    pub fn segment(&mut self, s: Segment) -> Result<(), NoMemory>
        requires place { IsSegment self.old s }
        requires apart { All (λ t. SegmentsApart t s) self.old.segments }
        requires room { length self.old.segments + 1 < limit }
        ensures ok { OnOk result (self.new ≡ record self.old { segments = self.old.segments ++ s ∷ [] }) }
        ensures err { OnErr result (self.new ≡ self.old) }
    {
        self.segments.push(s)?;
        Ok(())
    }

    /// Adds a line.
    pub fn line(&mut self, l: Line) -> Result<(), NoMemory>
        requires place { IsLine self.old l }
        requires apart { All (λ m. LinesApart m l) self.old.lines }
        requires room { length self.old.lines + 1 < limit }
        ensures ok { OnOk result (self.new ≡ record self.old { lines = self.old.lines ++ l ∷ [] }) }
        ensures err { OnErr result (self.new ≡ self.old) }
    {
        self.lines.push(l)?;
        Ok(())
    }

    /// Adds a mark.
    pub fn mark(&mut self, m: Mark) -> Result<(), NoMemory>
        requires place { IsMark self.old m }
        requires apart { All (λ n. MarksApart n m) self.old.marks }
        requires room { length self.old.marks + 1 < limit }
        ensures ok { OnOk result (self.new ≡ record self.old { marks = self.old.marks ++ m ∷ [] }) }
        ensures err { OnErr result (self.new ≡ self.old) }
    {
        self.marks.push(m)?;
        Ok(())
    }

    /// Adds segments, lines and marks where the result is a fabric. After an error the fabric holds some of them.
    pub fn add(
        &mut self,
        segments: &[Segment],
        lines: &[Line],
        marks: &[Mark],
    ) -> Result<(), NoMemory>
        requires met { IsFabric (with_added self.old segments.now lines.now marks.now) }
        requires room { IsRoomy (with_added self.old segments.now lines.now marks.now) }
        ensures { OnOk result (self.new ≡ with_added self.old segments.now lines.now marks.now) }
    {
        self.add_segments(segments)?;
        self.add_lines(lines)?;
        self.add_marks(marks)?;
        Ok(())
    }

    fn add_segments(&mut self, segments: &[Segment]) -> Result<(), NoMemory>
        requires places { All (IsSegment self.old) segments.now }
        requires apart { AllPairs SegmentsApart (self.old.segments ++ segments.now) }
        requires room { length (self.old.segments ++ segments.now) < limit }
        ensures { OnOk result (self.new ≡ record self.old { segments = self.old.segments ++ segments.now }) }
    {
        for s in segments {
            self.segment(*s)?;
        }
        Ok(())
    }

    fn add_lines(&mut self, lines: &[Line]) -> Result<(), NoMemory>
        requires places { All (IsLine self.old) lines.now }
        requires apart { AllPairs LinesApart (self.old.lines ++ lines.now) }
        requires room { length (self.old.lines ++ lines.now) < limit }
        ensures { OnOk result (self.new ≡ record self.old { lines = self.old.lines ++ lines.now }) }
    {
        for l in lines {
            self.line(*l)?;
        }
        Ok(())
    }

    fn add_marks(&mut self, marks: &[Mark]) -> Result<(), NoMemory>
        requires places { All (IsMark self.old) marks.now }
        requires apart { AllPairs MarksApart (self.old.marks ++ marks.now) }
        requires room { length (self.old.marks ++ marks.now) < limit }
        ensures { OnOk result (self.new ≡ record self.old { marks = self.old.marks ++ marks.now }) }
    {
        for m in marks {
            self.mark(*m)?;
        }
        Ok(())
    }

    /// The rectangles that a fabric draws, in half-units: those of the trunks, of the bands, of the segments, of the
    /// lines and of the marks. A lambda is 500 half-units.
    pub fn shape(&self, alloc: Global) -> Result<Shape, NoMemory>
        ensures rectangles { IfOk result (λ s. s ≡ shape self.now) }
        ensures exact { IfOk result (λ s. length s ≡ rectangle_count self.now) }
        ensures count { IfOk result (λ s. length s ≤ 10 * thing_count self.now + 2 * bands self.now + 2) }
    {
        let shape = self.rectangles(alloc)?;
        Ok(shape)
    }

    fn rectangles(&self, alloc: Global) -> Result<Shape, NoMemory>
        ensures { IfOk result (λ s. s ≡ shape self.now) }
    {
        let bases = bases(alloc, self, self.rows.as_slice())?;
        let bases = bases.as_slice();
        let mut shape = frame(alloc, self, bases)?;
        draw_segments(self, bases, self.segments.as_slice(), &mut shape)?;
        draw_lines(self, bases, self.lines.as_slice(), &mut shape)?;
        draw_marks(self, bases, self.marks.as_slice(), &mut shape)?;
        Ok(shape)
    }

    /// Every fabric meets the conditions on what stands where. For the proofs of crates above.
    pub fn conditions(&self)
        ensures met { IsFabric self.now }
        ensures room { IsRoomy self.now }
    {
        let _columns = self.columns;
    }
}
