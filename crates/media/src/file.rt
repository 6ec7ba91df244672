// What a whole file says of its colour: its tracks, one after the other, and the image of an AVIF file.
ghost use Rattle.std.specs.Prelude.{◌≡◌, ◌≤◌};
ghost use Rattle.media.specs.Kinds.{branded, file_kind, is_picture};
ghost use Rattle.media.specs.Inside.{Here};
ghost use Rattle.media.specs.SaidIn.{SaidIn, FileIn};
ghost use Rattle.media.specs.Saying.{counted, of_movie, of_image, of_both};

use crate::finding::{META, STSD, Span, Trouble};
use crate::records::Said;
use crate::{finding, records};
use std::os::unix::fs::FileExt;

// How a file is read: by its tracks, by its image, or by both.
#[derive(Clone, Copy)]
pub enum FileKind {
    Movie,
    Image,
    Sequence,
    Stranger,
}

// How many tracks are pictures.
#[derive(Clone, Copy)]
pub enum Tracks {
    Without,
    One,
    Several,
}

// What all pictures of a file come to, what its image alone says, and how many of its tracks are pictures.
#[derive(Clone, Copy)]
pub struct FileSaid {
    pub said: Result<Said, Trouble>,
    pub image: Result<Said, Trouble>,
    pub tracks: Tracks,
}

// What the tracks come to, and how many of them are pictures, likewise.
#[derive(Clone, Copy)]
struct MovieSaid {
    said: Result<Said, Trouble>,
    tracks: Tracks,
}

// Four letters as one number, a byte for each.
pub const TRAK: u32 = 0x7472_616b;

const MOOV: u32 = 0x6d6f_6f76;

const MDIA: u32 = 0x6d64_6961;

const HDLR: u32 = 0x6864_6c72;

const MINF: u32 = 0x6d69_6e66;

const STBL: u32 = 0x7374_626c;

const IPRP: u32 = 0x6970_7270;

const IPCO: u32 = 0x6970_636f;

// The same of first boxes, brands and the media of tracks.
const FTYP: u32 = 0x6674_7970;

const MDAT: u32 = 0x6d64_6174;

const WIDE: u32 = 0x7769_6465;

const FREE: u32 = 0x6672_6565;

const SKIP: u32 = 0x736b_6970;

const AVIF: u32 = 0x6176_6966;

const MIF1: u32 = 0x6d69_6631;

const AVIS: u32 = 0x6176_6973;

const MSF1: u32 = 0x6d73_6631;

const VIDE: u32 = 0x7669_6465;

const PICT: u32 = 0x7069_6374;

// How many bytes a track's description of its pictures has in front of the boxes that it holds.
const ENTRY_BYTES: u8 = 78;

// How a file of this brand is read.
#[tactic(auto, unfolding(crate::specs::Kinds::branded))]
fn branded(brand: Option<u32>) -> FileKind
    ensures { result ≡ branded brand }
{
    match brand {
        Some(AVIF | MIF1) => FileKind::Image,
        Some(AVIS | MSF1) => FileKind::Sequence,
        _ => FileKind::Movie,
    }
}

// How a file is read, by the kind of its first box and the brand in it. One without a first box of its kind begins as QuickTime files may.
#[tactic(auto, unfolding(crate::specs::Kinds::file_kind, crate::specs::Kinds::opens_movie))]
fn file_kind(first: Option<u32>, brand: Option<u32>) -> FileKind
    ensures { result ≡ file_kind first brand }
{
    match first {
        Some(FTYP) => branded(brand),
        Some(MOOV | MDAT | WIDE | FREE | SKIP) => FileKind::Movie,
        _ => FileKind::Stranger,
    }
}

// Whether a track of this medium is a picture.
#[tactic(auto, unfolding(crate::specs::Kinds::is_picture))]
fn is_picture(handler: Option<u32>) -> bool
    ensures { result ≡ is_picture handler }
{
    matches!(handler, Some(VIDE | PICT))
}

// What a track's descriptions of its pictures say.
fn entries_said(file: &impl FileExt, from: u64, end: u64) -> Result<Said, Trouble>
    ensures { SaidIn from end result }
{
    let mut said = Ok(Said::Other);
    let mut at = from;
    // A while loop: the walk goes on from where the description ends.
    while let Some(s) = finding::find(file, at, end, None, ENTRY_BYTES)? {
        said = records::across(said, records::records_said(file, s.from, s.end));
        at = s.end;
    }
    said
}

fn descriptions_said(file: &impl FileExt, from: u64, end: u64) -> Result<Said, Trouble>
    requires { from ≤ end }
    ensures { SaidIn from end result }
{
    match finding::descend(file, from, end, &[MINF, STBL, STSD])? {
        Some(s) => records::beside(Ok(Said::Nothing), entries_said(file, s.from, s.end)),
        None => Ok(Said::Nothing),
    }
}

// What a track says, by its media.
fn media_said(file: &impl FileExt, from: u64, end: u64) -> Result<Said, Trouble>
    requires { from ≤ end }
    ensures { SaidIn from end result }
{
    match finding::find(file, from, end, Some(HDLR), 8)? {
        Some(s) if is_picture(finding::number_at(file, s.from, s.end)) => {
            descriptions_said(file, from, end)
        }
        _ => Ok(Said::Other),
    }
}

pub fn track_said(file: &impl FileExt, from: u64, end: u64) -> Result<Said, Trouble>
    ensures { SaidIn from end result }
{
    match finding::find(file, from, end, Some(MDIA), 0)? {
        Some(s) => media_said(file, s.from, s.end),
        None => Ok(Said::Other),
    }
}

// One more where a track is a picture.
fn counted(tracks: Tracks, said: Result<Said, Trouble>) -> Tracks
    ensures { result ≡ counted tracks said }
{
    match (tracks, said) {
        (_, Ok(Said::Other)) => tracks,
        (Tracks::Without, _) => Tracks::One,
        _ => Tracks::Several,
    }
}

fn tracks_said(file: &impl FileExt, from: u64, end: u64) -> MovieSaid
    ensures { SaidIn from end result.said }
{
    let mut said = Ok(Said::Other);
    let mut tracks = Tracks::Without;
    let mut at = from;
    // A while loop: the walk goes on from where the track ends.
    while at < end {
        match finding::find(file, at, end, Some(TRAK), 0) {
            Ok(Some(s)) => {
                let one = track_said(file, s.from, s.end);
                said = records::across(said, one);
                tracks = counted(tracks, one);
                at = s.end;
            }
            Ok(None) => return MovieSaid { said, tracks },
            Err(t) => return MovieSaid {
                said: Err(t),
                tracks,
            },
        }
    }
    MovieSaid { said, tracks }
}

// The part of a file that has its tracks.
pub fn movie(file: &impl FileExt, size: u64) -> Result<Option<Span>, Trouble>
    ensures { Here 0 size result }
{
    finding::descend(file, 0, size, &[MOOV])
}

fn image_said(file: &impl FileExt, size: u64) -> Result<Said, Trouble>
    ensures { SaidIn 0 size result }
{
    match finding::descend(file, 0, size, &[META, IPRP, IPCO])? {
        Some(s) => records::records_said(file, s.from, s.end),
        None => Ok(Said::Nothing),
    }
}

// What the tracks say. A file without any may still have an image, as one of another brand.
fn movie_said(file: &impl FileExt, size: u64) -> MovieSaid
    ensures { SaidIn 0 size result.said }
{
    match movie(file, size) {
        Ok(Some(s)) => tracks_said(file, s.from, s.end),
        Ok(None) => MovieSaid {
            said: image_said(file, size),
            tracks: Tracks::Without,
        },
        Err(t) => MovieSaid {
            said: Err(t),
            tracks: Tracks::Without,
        },
    }
}

fn of_movie(m: MovieSaid) -> FileSaid
    ensures { result ≡ of_movie m.said m.tracks }
{
    FileSaid {
        said: m.said,
        image: Ok(Said::Other),
        tracks: m.tracks,
    }
}

fn of_image(image: Result<Said, Trouble>) -> FileSaid
    ensures { result ≡ of_image image }
{
    FileSaid {
        said: image,
        image,
        tracks: Tracks::Without,
    }
}

fn of_both(image: Result<Said, Trouble>, m: MovieSaid) -> FileSaid
    ensures { result ≡ of_both image m.said m.tracks }
{
    FileSaid {
        said: records::across(image, m.said),
        image,
        tracks: m.tracks,
    }
}

// What an open file says that is so many bytes long. A folder can be opened, but not read.
pub fn file_said(file: &impl FileExt, size: u64) -> FileSaid
    ensures { FileIn size result }
{
    let mut one = [0u8; 1];
    if let Err(e) = finding::read_at(file, 0, &mut one) {
        return of_image(Err(Trouble::Unread(e.raw_os_error())));
    }
    let first = finding::number_at(file, 4, size);
    let brand = finding::number_at(file, 8, size);
    match file_kind(first, brand) {
        FileKind::Movie => of_movie(movie_said(file, size)),
        FileKind::Image => of_image(image_said(file, size)),
        FileKind::Sequence => of_both(image_said(file, size), movie_said(file, size)),
        FileKind::Stranger => of_image(Err(Trouble::Stranger)),
    }
}
