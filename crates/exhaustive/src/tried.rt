// What comes of trying plans one after another.
use prices::Price;
use refusals::Refusal;
use std::cmp::Ordering;

// The least price, or why there is none; and how many plans were tried, how many of them were priced, which is not refused, how
// many of these cost as little as the best, of how many pricing finds another core that does not fit than is found tick by tick,
// and whether all were tried.
#[derive(Clone, Copy)]
pub struct Tried {
    pub answer: Result<Price, Refusal>,
    pub tried: u64,
    pub priced: u64,
    pub cheapest: u64,
    pub fits_differ: u64,
    pub complete: bool,
}

impl Tried {
    // Before the first plan: the answer is that there is none.
    pub(crate) fn none() -> Tried {
        Tried {
            answer: Err(Refusal::NoPlan),
            tried: 0,
            priced: 0,
            cheapest: 0,
            fits_differ: 0,
            complete: false,
        }
    }

    // Where the instance is refused, no plan is left to try.
    pub(crate) fn refused(why: Refusal) -> Tried {
        Tried {
            answer: Err(why),
            complete: true,
            ..Tried::none()
        }
    }

    // Counts a plan's price; answers whether it is below all before it.
    pub(crate) fn count_price(&mut self, price: Price) -> bool {
        self.priced = self.priced.wrapping_add(1);
        let order = match self.answer {
            Ok(least) => price.cost.cmp(&least.cost),
            Err(_) => Ordering::Less,
        };
        match order {
            Ordering::Less => {
                self.answer = Ok(price);
                self.cheapest = 1;
            }
            Ordering::Equal => self.cheapest = self.cheapest.wrapping_add(1),
            Ordering::Greater => {}
        }
        order.is_lt()
    }

    // Counts a plan of which pricing finds another core that does not fit.
    pub(crate) fn count_other_fit(&mut self) {
        self.fits_differ = self.fits_differ.wrapping_add(1);
    }
}
