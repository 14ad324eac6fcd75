// The aggregates of the servers, one for each key, and what both together give.
use crate::key::{Controller, KEYS, Key, VALVES};
use crate::made_up;
use crate::refusal::{Refusal, check};
use crate::report::{DIMENSION, Gradient, INPUT_LEN, Report, param};
use pine::PineParam;
use rules::Answer;

// The elements of an aggregate.
type Row = [u64; DIMENSION];

// The aggregates of a server, in the keys' order.
#[derive(Clone, Copy)]
pub struct Aggregates {
    pub rows: [Row; KEYS],
}

// The two servers' aggregates of the same reports.
#[derive(Clone, Copy)]
pub struct Sum {
    pub leader: Row,
    pub helper: Row,
}

// Both servers, each with the aggregates of its own shares.
#[derive(Clone, Copy)]
pub struct Servers {
    pub leader: Aggregates,
    pub helper: Aggregates,
}

// The part of a full share that is added to an aggregate.
pub fn gradient_part<'a>(param: PineParam, share: &'a [u64]) -> Result<&'a [u64], Refusal> {
    let mut number = 0;
    let mut place = 0;
    let gradient = parts::gradient_part(param, share, &mut number, &mut place);
    check(Answer { number, place })?;
    Ok(gradient)
}

// The aggregate of no shares.
fn empty() -> Result<Row, Refusal> {
    let mut row = [0; DIMENSION];
    check(vdaf::empty_aggregate(param(), &mut row))?;
    Ok(row)
}

impl Aggregates {
    fn empty() -> Result<Aggregates, Refusal> {
        Ok(Aggregates {
            rows: [empty()?; KEYS],
        })
    }

    // 6. Or a server keeps its aggregates itself: it adds the gradient part of its full share to that of its key.
    fn add(&mut self, param: PineParam, key: Key, share: &[u64]) -> Result<(), Refusal> {
        let gradient = gradient_part(param, share)?;
        check(vdaf::accumulate(param, &mut self.rows[key.index()], gradient))
    }

    // 7. A server merges aggregates: here those of a controller's valves.
    fn merged(&self, controller: Controller) -> Result<Row, Refusal> {
        let rows = match controller {
            Controller::First => &self.rows[..VALVES],
            Controller::Second => &self.rows[VALVES..],
        };
        let mut total = empty()?;
        for row in rows {
            check(vdaf::merge(param(), &mut total, row))?;
        }
        Ok(total)
    }

    // 8. A grower withdraws: a server takes the gradient part of the share out of the aggregate of its key.
    fn withdraw(&mut self, key: Key, share: &[u64]) -> Result<(), Refusal> {
        let gradient = gradient_part(param(), share)?;
        check(vdaf::subtract(param(), &mut self.rows[key.index()], gradient))
    }
}

impl Sum {
    // Where an aggregate that is withdrawn was merged before, each server takes it out of the merged one, too.
    pub fn unmerge(&mut self, other: &Sum) -> Result<(), Refusal> {
        check(vdaf::unmerge(param(), &mut self.leader, &other.leader))?;
        check(vdaf::unmerge(param(), &mut self.helper, &other.helper))
    }

    // 9. The two servers' aggregates together give the sum of the gradients.
    pub fn decode(&self) -> Result<Gradient, Refusal> {
        let mut decoded = [0.0; DIMENSION];
        check(vdaf::unshard(param(), &self.leader, &self.helper, &mut decoded))?;
        Ok(decoded)
    }
}

impl Servers {
    // The aggregates of a day's reports.
    pub fn of(reports: &[Report<INPUT_LEN>]) -> Result<Servers, Refusal> {
        let mut servers = Servers {
            leader: Aggregates::empty()?,
            helper: Aggregates::empty()?,
        };
        for report in reports {
            servers.add(param(), report)?;
        }
        Ok(servers)
    }

    pub fn add<const N: usize>(
        &mut self,
        param: PineParam,
        report: &Report<N>,
    ) -> Result<(), Refusal> {
        self.leader.add(param, report.key, &report.leader)?;
        self.helper.add(param, report.key, &report.helper)
    }

    pub fn withdraw(&mut self, report: &Report<INPUT_LEN>) -> Result<(), Refusal> {
        self.leader.withdraw(report.key, &report.leader)?;
        self.helper.withdraw(report.key, &report.helper)
    }

    pub fn sum(&self, key: Key) -> Sum {
        Sum {
            leader: self.leader.rows[key.index()],
            helper: self.helper.rows[key.index()],
        }
    }

    pub fn total(&self, controller: Controller) -> Result<Sum, Refusal> {
        Ok(Sum {
            leader: self.leader.merged(controller)?,
            helper: self.helper.merged(controller)?,
        })
    }

    // How many keys' decoded rows are the true sums: those of their one gradient.
    pub fn true_keys(&self) -> usize {
        (0..KEYS)
            .map(Key::at)
            .filter(|&key| self.is_true(key))
            .count()
    }

    fn is_true(&self, key: Key) -> bool {
        self.sum(key)
            .decode()
            .is_ok_and(|decoded| decoded == made_up::gradient(key))
    }
}
