// The calls of a script by their tags.
ghost use Rattle.std.specs.Prelude.{◌≡◌};
ghost use Rattle.calls_run.specs.Tags.{Decodes};

// A call, or a script's end.
#[derive(Clone, Copy)]
pub enum Step {
    End,
    Start,
    Octets,
    Line,
    Save,
    WriteLine,
    Restore,
    FailOver,
    Replay,
    Adopt,
    ReplayTo,
    Ask,
    Add,
}

// A tag that is no call's.
#[derive(Clone, Copy)]
pub struct UnknownTag(pub u8);

impl TryFrom<u8> for Step {
    type Error = UnknownTag;

    ghost try_from_gives = { Decodes };

    fn try_from(tag: u8) -> Result<Self, UnknownTag> {
        match tag {
            0 => Ok(Step::End),
            1 => Ok(Step::Start),
            2 => Ok(Step::Octets),
            3 => Ok(Step::Line),
            4 => Ok(Step::Save),
            5 => Ok(Step::WriteLine),
            6 => Ok(Step::Restore),
            7 => Ok(Step::FailOver),
            8 => Ok(Step::Replay),
            9 => Ok(Step::Adopt),
            10 => Ok(Step::ReplayTo),
            11 => Ok(Step::Ask),
            12 => Ok(Step::Add),
            _ => Err(UnknownTag(tag)),
        }
    }
}
