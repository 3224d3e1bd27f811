// The expressions at an expression's links, by its shape.
ghost use Rattle.std.specs.Prelude.{◌≡◌};
ghost use Rattle.write_sets_programs.specs.Links.{read_links, operation_links, choice_links, links_of};

use super::Links;
use language_shapes::{ChoiceShape, ExpressionShape, OperationShape, PlaceShape};

const NO_LINKS: Links = Links {
    first: 0,
    second: 0,
    third: 0,
    place: 0,
    arguments: 0,
};

fn read_links(place: PlaceShape) -> Links
    ensures { result ≡ read_links place }
{
    match place {
        PlaceShape::Variable(_) => NO_LINKS,
        PlaceShape::Element(_, index) => Links {
            first: index,
            ..NO_LINKS
        },
    }
}

fn operation_links(operation: OperationShape) -> Links
    ensures { result ≡ operation_links operation }
{
    match operation {
        OperationShape::Minus(a) | OperationShape::Not(a) => Links {
            first: a,
            ..NO_LINKS
        },
        OperationShape::Binary(_, a, b) | OperationShape::Comma(a, b) => Links {
            first: a,
            second: b,
            ..NO_LINKS
        },
        OperationShape::Assign(place, e) | OperationShape::Compound(_, place, e) => Links {
            first: e,
            place,
            ..NO_LINKS
        },
        OperationShape::Prefix(_, place) | OperationShape::Postfix(_, place) => Links {
            place,
            ..NO_LINKS
        },
    }
}

fn choice_links(choice: ChoiceShape) -> Links
    ensures { result ≡ choice_links choice }
{
    match choice {
        ChoiceShape::And(a, b) | ChoiceShape::Or(a, b) => Links {
            first: a,
            second: b,
            ..NO_LINKS
        },
        ChoiceShape::Conditional(test, a, b) => Links {
            first: test,
            second: a,
            third: b,
            ..NO_LINKS
        },
    }
}

pub fn links_of(shape: ExpressionShape) -> Links
    ensures { result ≡ links_of shape }
{
    match shape {
        ExpressionShape::Number(_) => NO_LINKS,
        ExpressionShape::Read(place) => read_links(place),
        ExpressionShape::Operation(operation) => operation_links(operation),
        ExpressionShape::Choice(choice) => choice_links(choice),
        ExpressionShape::Call(_, arguments) => Links {
            arguments,
            ..NO_LINKS
        },
    }
}
