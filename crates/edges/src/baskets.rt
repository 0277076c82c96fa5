// What a case with a basket shows: what is told of it on a copy, and then what its requests are answered.
ghost use Rattle.std.specs.Prelude.{◌≡◌};
ghost use Rattle.requests.specs.Request.{reading_of};
ghost use Rattle.calls.specs.Buffers.{buffers_of};
ghost use Rattle.edges.specs.Baskets.{request_or, BasketOf, committed};

use crate::writers::Numbers;
use crate::{print, readers};
use formats::facts::{ContentId, Facts};
use formats::head::Pair;
use formats::refusal::Refusal;
use formats::table;
use music_counter::{preview, serve};
use requests::read::Read;
use requests::request;
use requests::request::Request;
use tables::shop::Shop;

// What stands in the scratch buffers before.
const NOISE: u8 = 0xee;

// The request that was read, or this one.
fn request_or(found: Result<Read<Request>, Refusal>, spare: Request) -> Request
    ensures { result ≡ request_or spare (reading_of found) }
{
    found.map_or(spare, |read| read.value)
}

// The requests of these bytes, one after another, and `spare` in each place for which none can be read.
fn basket_of(s: &[u8], spare: Request) -> [Request; 16]
    ensures { BasketOf s.now spare result }
{
    let mut basket = [spare; 16];
    let mut rest = s;
    for place in &mut basket {
        let found = request::read(rest);
        *place = request_or(found, spare);
        rest = request::remainder(rest, found);
    }
    basket
}

// Carries requests out, one after another, and shows what each is answered.
fn commit(pair: Pair, ledger: &mut [u8], titles: &mut [u8], rules: &mut [u8], requests: &[Request])
    ensures { buffers_of ledger.new titles.new rules.new
        ≡ committed pair requests.now (buffers_of ledger.old titles.old rules.old) }
{
    for request in requests {
        print::answer(serve::perform(pair, ledger, titles, rules, *request));
    }
}

// What is told of a basket, whose scratch buffers are lent whole or but for their last byte: 16 places for answers, in which 99 stood, and
// the scratch buffers, with the count of bytes that are as before.
fn tell(pair: Pair, shop: Shop, short: u64, basket: &[Request; 16], count: u64) {
    let mut ledger = [NOISE; 120];
    let mut titles = [NOISE; 16000];
    let mut rules = [NOISE; 32000];
    let mut answers = [99; 16];
    let told = preview::preview(
        pair,
        shop,
        &mut ledger[..120 - (short % 2) as usize],
        &mut titles[..16000 - (short / 2 % 2) as usize],
        &mut rules[..32000 - (short / 4 % 2) as usize],
        basket,
        count,
        &mut answers,
    );
    print::answer(told);
    for answer in answers {
        print::number(answer);
    }
    print::shop(Shop::new(&ledger, &titles, &rules));
    let left = ledger
        .iter()
        .chain(&titles)
        .chain(&rules)
        .filter(|x| **x == NOISE);
    print::number(left.count() as u64);
}

// What is told of a basket after requests, what stands in the originals then, and what its requests are answered and leave there.
pub fn previewed(pair: Pair, v: Numbers, part: &[u8]) {
    let mut ledger = [0u8; 120];
    let mut titles = [0u8; 16000];
    let mut rules = [0u8; 32000];
    let requests = table::part(part, 0, v[0] as usize);
    let _ = readers::served(
        pair,
        &mut ledger,
        &mut titles,
        &mut rules,
        requests,
        &mut [],
    );
    // A request of the last row, which the rows show if a place is performed that is past the count.
    let spare = Request::Register {
        content: ContentId(4),
        facts: Facts::default(),
    };
    let basket = basket_of(table::part(part, v[0] as usize, part.len()), spare);
    let ledger_len = 120 - (v[2] / 8 % 2) as usize;
    let titles_len = 16000 - (v[2] / 16 % 2) as usize;
    let rules_len = 32000 - (v[2] / 32 % 2) as usize;
    let shop = Shop::new(
        &ledger[..ledger_len],
        &titles[..titles_len],
        &rules[..rules_len],
    );
    tell(pair, shop, v[2], &basket, v[1]);
    print::shop(Shop::new(&ledger, &titles, &rules));
    commit(
        pair,
        &mut ledger[..ledger_len],
        &mut titles[..titles_len],
        &mut rules[..rules_len],
        &basket[..v[1].min(16) as usize],
    );
    print::shop(Shop::new(&ledger, &titles, &rules));
}
