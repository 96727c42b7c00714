// A reply in the making: fields after one another, and then their seal.
ghost use Rattle.std.specs.Prelude.{◌≡◌, ◌+◌, ◌*◌, ◌<◌, ◌≤◌, length, take, ◌∷◌};
ghost use Rattle.std.specs.List.{flat_map, AllByRecursion};
ghost use Rattle.records.specs.Laws.{FourWords};
ghost use Rattle.seals.specs.Fletcher.{seal_bytes};
ghost use Rattle.fields.specs.Layout.{tag_number};
ghost use Rattle.replies.specs.Fits.{ReadingFits, FrameFits};
ghost use Rattle.replies.specs.Layout.{words, head_bytes, frame_bytes};
ghost use Rattle.replies.specs.Writing.{Puts};

use book::Reading;
use fields::Tag;
use records::{Frame, Record};
use seals::seal_of;

// The buffer, and how many bytes at its start are written. Each method asks for room in its own number of bytes.
#[derive(Drop)]
pub struct Writer<'a> {
    pub out: &'a mut [u8],
    pub at: usize,
}

impl Writer<'_> {
    fn put(&mut self, bytes: &[u8])
        requires { self.old.at + length bytes.now ≤ length self.old.out.now }
        ensures { Puts self.old self.new bytes.now }
    {
        let end = self.at + bytes.len();
        self.out[self.at..end].copy_from_slice(bytes);
        self.at = end;
    }

    // A field whose value has less than 256 bytes.
    pub fn field(&mut self, tag: Tag, value: &[u8])
        requires room { self.old.at + 3 + length value.now ≤ length self.old.out.now }
        requires short { length value.now < 256 }
        ensures { Puts self.old self.new (tag_number tag ∷ 0 ∷ length value.now ∷ value.now) }
    {
        self.put(&[tag.number(), 0, value.len() as u8]);
        self.put(value);
    }

    // The fields of a read before its frames.
    pub fn head(&mut self, reading: &Reading)
        requires { self.old.at + 52 ≤ length self.old.out.now }
        ensures wrote { Puts self.old self.new (head_bytes reading.now) }
        ensures fits { ReadingFits reading.now }
    {
        self.field(Tag::Status, &reading.status.number().to_be_bytes());
        self.field(Tag::FromTime, &reading.from.0.to_be_bytes());
        self.field(Tag::FromPosition, &reading.from.1.to_be_bytes());
        self.field(Tag::TillTime, &reading.till.0.to_be_bytes());
        self.field(Tag::TillPosition, &reading.till.1.to_be_bytes());
        self.field(Tag::Missed, &reading.missed.to_be_bytes());
        self.field(Tag::Version, &reading.version.to_be_bytes());
        self.field(Tag::Count, &reading.count.to_be_bytes());
    }

    // Four words, as a record is written.
    fn four(&mut self, four: [u32; 4])
        requires { self.old.at + 16 ≤ length self.old.out.now }
        ensures wrote { Puts self.old self.new (words four) }
        ensures fits { FourWords four }
    {
        for word in four {
            self.put(&word.to_be_bytes());
        }
    }

    fn frame<R: Record>(&mut self, frame: &Frame<R>)
        requires { self.old.at + 28 ≤ length self.old.out.now }
        ensures wrote { Puts self.old self.new (frame_bytes R.NUMBER R.writes frame.now) }
        ensures fits { FrameFits R.writes frame.now }
    {
        self.put(&[Tag::Frame.number(), 0, Tag::Frame.length() as u8, R::NUMBER]);
        self.put(&frame.time.to_be_bytes());
        self.put(&frame.position.to_be_bytes());
        self.four(frame.body.write());
    }

    pub fn frames<R: Record>(&mut self, frames: &[Frame<R>])
        requires { self.old.at + 28 * length frames.now ≤ length self.old.out.now }
        ensures wrote { Puts self.old self.new (flat_map (frame_bytes R.NUMBER R.writes) frames.now) }
        ensures fits { AllByRecursion (FrameFits R.writes) frames.now }
    {
        for frame in frames {
            self.frame(frame);
        }
    }

    // The seal of what is written.
    fn seal(&self) -> [u8; 2]
        requires { self.now.at ≤ length self.now.out.now }
        ensures { result ≡ seal_bytes (take self.now.at self.now.out.now) }
    {
        seal_of(&self.out[..self.at])
    }

    // Seals the fields.
    pub fn close(&mut self)
        requires { self.old.at + 2 ≤ length self.old.out.now }
        ensures { Puts self.old self.new (seal_bytes (take self.old.at self.old.out.now)) }
    {
        let seal = self.seal();
        self.put(&seal);
    }
}
