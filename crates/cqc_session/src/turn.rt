// What a session wants next.
use network_model::Call;
use session_model::Ending;

/// A call to be executed, or the end.
#[derive(Drop)]
pub enum Turn {
    Execute(Call),
    End(Ending),
}
