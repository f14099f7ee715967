use std::marker::Model;
use tus_steps::Request;
use upload_book::Moment;

/// A turn of a desk: a request, and the moment at which it comes.
#[derive(Drop)]
pub struct Turn<'a> {
    pub request: Request<'a>,
    pub now: Moment,
}

impl<'a> Model for Turn<'a> {
    ghost use Rattle.tus_shared.specs.Turn as spec;

    ghost Value = { spec.Turn };

    ghost view = { λ turn. record { request = turn.request; now = turn.now } };
}
