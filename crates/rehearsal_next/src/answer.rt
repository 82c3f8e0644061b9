// How a step is answered, and the line that says so.
use settings::Refusal;

// A step is done, and tells why the first record that it heard was turned away, if one was; or the step is refused.
pub type Answer = Result<Option<Refusal>, Refusal>;

// What a step did.
pub type Line = script::Line<Answer>;
