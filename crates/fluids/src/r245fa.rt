// R-245fa: 001, Tables 1, 5 and 6 and equations 4 to 6, as data. That each table is the definition's is the promise of `data_of`.
use crate::{Constants, Data, Estimate, Pair, Term};

pub(crate) static ENTRY: Data = Data {
    numbers: Constants {
        critical_temperature: 427.01,
        critical_density: 3.875,
        gas: 8.3144621,
        molar_mass: 0.13404794,
        a1: -13.38560883,
        a2: 9.845374371,
        c0: 4.0,
        critical_pressure: 3651000.0,
        least_temperature: 170.0,
        greatest_temperature: 440.0,
        greatest_density: 16.0,
        least_pressure: 1.0,
        greatest_pressure: 200000000.0,
        top_cells: 2048,
    },
    // 001, Table 6.
    terms: [
        Term::Plain {
            n: 0.057506623,
            t: 1.0,
            d: 4,
        },
        Term::Plain {
            n: 1.5615975,
            t: 0.27,
            d: 1,
        },
        Term::Plain {
            n: -2.3614485,
            t: 0.9,
            d: 1,
        },
        Term::Plain {
            n: -0.51773521,
            t: 1.09,
            d: 2,
        },
        Term::Plain {
            n: 0.18509788,
            t: 0.4,
            d: 3,
        },
        Term::Damped {
            n: -0.87405626,
            t: 2.9,
            d: 1,
            l: 2,
        },
        Term::Damped {
            n: -0.27530955,
            t: 1.7,
            d: 3,
            l: 2,
        },
        Term::Damped {
            n: 0.57971151,
            t: 0.8,
            d: 2,
            l: 1,
        },
        Term::Damped {
            n: -0.39934306,
            t: 3.6,
            d: 2,
            l: 2,
        },
        Term::Damped {
            n: -0.033230277,
            t: 1.05,
            d: 7,
            l: 1,
        },
        Term::Bell {
            n: 0.83210508,
            t: 1.8,
            d: 1,
            eta: 1.011,
            beta: 1.879,
            gamma: 1.081,
            epsilon: 0.709,
        },
        Term::Bell {
            n: -0.33544300,
            t: 4.0,
            d: 1,
            eta: 1.447,
            beta: 2.454,
            gamma: 0.651,
            epsilon: 0.939,
        },
        Term::Bell {
            n: -0.10117801,
            t: 4.5,
            d: 3,
            eta: 1.079,
            beta: 1.256,
            gamma: 0.468,
            epsilon: 0.703,
        },
        Term::Bell {
            n: -0.0091495867,
            t: 2.0,
            d: 3,
            eta: 7.86,
            beta: 21.1,
            gamma: 1.293,
            epsilon: 0.777,
        },
    ],
    // 001, Table 5.
    pairs: [
        Pair {
            v: 5.5728,
            u: 222.0,
        },
        Pair {
            v: 10.385,
            u: 1010.0,
        },
        Pair {
            v: 12.554,
            u: 2450.0,
        },
    ],
    // 001, equations 4 to 6.
    pressure: &[
        Estimate::Alone { n: -7.8353 },
        Estimate::Raised { n: 1.7746, t: 1.5 },
        Estimate::Raised { n: -3.1305, t: 2.5 },
        Estimate::Raised { n: -3.4216, t: 5.0 },
    ],
    liquid: &[
        Estimate::Raised {
            n: 0.46367,
            t: 0.17,
        },
        Estimate::Raised { n: 2.2375, t: 0.5 },
        Estimate::Raised {
            n: -0.27579,
            t: 1.3,
        },
        Estimate::Raised { n: 0.55136, t: 2.5 },
    ],
    vapour: &[
        Estimate::Raised {
            n: -0.99583,
            t: 0.24,
        },
        Estimate::Raised {
            n: -2.6109,
            t: 0.61,
        },
        Estimate::Alone { n: -4.4141 },
        Estimate::Raised { n: -18.573, t: 2.7 },
        Estimate::Raised {
            n: -55.961,
            t: 5.95,
        },
    ],
};
