// A request as C gives it, and how it is performed.
#![tactic(auto)]

ghost use Rattle.calls.specs.Buffers.{buffers_of};
ghost use Rattle.music_counter.specs.Preview.{AnswersGiven};
ghost use Rattle.till.specs.Given.{request_given};

use crate::{
    counter_check_in, counter_check_out, counter_delete, counter_move_in, counter_move_out,
    counter_record, counter_register,
};
use formats::head::Pair;
use formats::refusal::Refusal;
use music_counter::preview::Given;

// A request as C gives it: the number of a kind, and arguments in nine places.
#[repr(C)]
#[derive(Clone, Copy)]
pub struct CounterRequest {
    pub kind: u64,
    pub arguments: [u64; 9],
}

impl Given for CounterRequest {
    ghost given = { request_given };

    // By the C function of its kind. If `music_counter::serve::perform` did it, each call would be compiled as a function of its own, behind
    // its C function and this, or twice over; both take longer. Inline, since as a call this takes a nanosecond more.
    #[tactic(auto, unfolding(requests::specs::Values::request_in, requests::specs::Request::request_of))]
    #[inline(always)]
    fn perform(&self, pair: Pair, ledger: &mut [u8], titles: &mut [u8], rules: &mut [u8]) -> u64
        ensures { AnswersGiven pair (request_given self.now)
            (buffers_of ledger.old titles.old rules.old) result
            (buffers_of ledger.new titles.new rules.new) }
    {
        let pair = pair == Pair::Picture;
        let a = &self.arguments;
        match self.kind {
            1 => counter_register(ledger, a[0], a[1], a[2], a[3], a[4], a[5], a[6]),
            2 => counter_record(
                pair, ledger, titles, rules, a[0], a[1], a[2], a[3], a[4], a[5], a[6], a[7], a[8],
            ),
            3 => counter_check_out(pair, ledger, titles, rules, a[0], a[1]),
            4 => counter_check_in(pair, ledger, titles, rules, a[0], a[1]),
            5 => counter_move_out(
                pair, ledger, titles, rules, a[0], a[1], a[2], a[3], a[4], a[5],
            ),
            6 => counter_move_in(pair, ledger, titles, rules, a[0], a[1], a[2], &mut 0),
            7 => counter_delete(pair, ledger, titles, rules, a[0], a[1], a[2], a[3], a[4]),
            _ => u64::from(Refusal::Kind),
        }
    }
}
