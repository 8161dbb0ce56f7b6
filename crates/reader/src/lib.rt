// The reader of metadata content: the lent content and a place in it, and what stands there.
#![tactic(auto)]

ghost use Rattle.std.specs.Prelude.{◌≡◌};
ghost use Rattle.reader.specs.Content.{seen, field_at, place_after, next_field, advanced};

// A tag and its value.
#[derive(Clone, Copy)]
pub struct Field<'a> {
    pub tag: u8,
    pub value: &'a [u8],
}

// Bytes that are no field.
#[derive(Clone, Copy)]
pub struct Malformed;

// Steps through fields: the lent content, and the place in it.
#[derive(Clone, Copy)]
pub struct MetadataReader<'a> {
    pub content: &'a [u8],
    pub at: usize,
}

// What a reader stood at, and its place after that.
#[derive(Clone, Copy)]
pub struct Step<'a> {
    pub next: Option<Result<Field<'a>, Malformed>>,
    pub at: usize,
}

// One step of a reader from any place of any bytes: it goes past a tag, a length and as many bytes.
pub fn step_from<'a>(content: &'a [u8], at: usize) -> Step<'a>
    ensures { (seen result.next ≡ field_at at content.now) × (result.at ≡ place_after at content.now) }
{
    if content.len() <= at {
        return Step { next: None, at };
    }
    let malformed = Step {
        next: Some(Err(Malformed)),
        at,
    };
    let [tag, length, rest @ ..] = &content[at..] else {
        return malformed;
    };
    let length = *length as usize;
    if rest.len() < length {
        return malformed;
    }
    let field = Field {
        tag: *tag,
        value: &rest[..length],
    };
    Step {
        next: Some(Ok(field)),
        at: at + 2 + field.value.len(),
    }
}

impl<'a> MetadataReader<'a> {
    // A reader of the content that stands at a place of it.
    pub fn new(content: &'a [u8], at: usize) -> MetadataReader<'a>
        ensures { (result.content ≡ content.entry) × (result.at ≡ at) }
    {
        MetadataReader { content, at }
    }

    // What the reader stands at; the reader goes past a field.
    pub fn advance(&mut self) -> Option<Result<Field<'a>, Malformed>>
        ensures { (seen result ≡ next_field self.old) × (self.new ≡ advanced self.old) }
    {
        let step = step_from(self.content, self.at);
        self.at = step.at;
        step.next
    }
}
